// Words, names and tokens in the script text and the library text, and spans (lex/tok.rs, diagnostic.rs, ast.rs).
#![tactic(auto)]

ghost use Rattle.std.specs.Prelude.{◌≡◌, not, ◌<◌, ◌≤◌, ◌^◌, ◌+◌, length, get_or, set};
ghost use Rattle.tok.specs.LittleEndian.{little_endian, ByteAt};
ghost use Rattle.tok.specs.Word.{kind_of, payload_of, name_length, name_start, name_bit, word_of};
ghost use Rattle.tok.specs.Text.{Texts, texts_of, bytes_in, name_bytes, same_bytes, same_name};
ghost use Rattle.tok.specs.Part.{part_of, differs_in, next_part};
ghost use Rattle.tok.specs.Token.{token_bytes};
ghost use Rattle.tok.specs.Name.{good_payload, good_name};
ghost use Rattle.tok.specs.Source.{bit_of};
ghost use Rattle.tok.specs.Span.{token_span, end_of, cover};

use std::marker::Model;

// Words.

// The word of kind 1 with no payload: a kind is the top 4 bits of its word.
pub const KIND: u32 = 0x1000_0000;

// The kind of a word.
pub fn kind(w: u32) -> u32
    ensures { result ≡ kind_of w }
{
    w / KIND
}

// The payload of a word: its low 28 bits.
pub fn payload(w: u32) -> usize
    ensures { result ≡ payload_of w }
{
    (w % KIND) as usize
}

// The word of a kind and a payload.
#[inline]
pub fn word_of(kind: u32, payload: usize) -> u32
    requires { (kind < 16) × (payload < 2 ^ 28) }
    ensures { result ≡ word_of kind payload }
{
    kind * KIND + payload as u32
}

// The item at an index, and another past the end.
#[inline]
pub fn item_at<T: Copy>(items: &[T], i: usize, none: T) -> T
    ensures { result ≡ get_or items.now i none }
{
    items.get(i).copied().unwrap_or(none)
}

// Puts an item at an index, and nothing past the end.
#[inline]
pub fn set_item<T: Copy>(items: &mut [T], i: usize, item: T)
    ensures { items.new ≡ set items.old i item }
{
    if i < items.len() {
        items[i] = item;
    }
}

// The word at an index, and 0 past the end.
pub fn word_at(words: &[u32], i: usize) -> u32
    ensures { result ≡ get_or words.now i 0 }
{
    item_at(words, i, 0)
}

// The word that stands k after an index, and 0 past the end.
#[inline]
pub fn word_after(words: &[u32], at: usize, k: usize) -> u32
    ensures { result ≡ get_or words.now (at + k) 0 }
{
    word_at(words, at.saturating_add(k))
}

// The byte at an index, and 0 past the end.
pub fn byte_at(bytes: &[u8], i: usize) -> u32
    ensures { ByteAt bytes.now i result }
{
    u32::from(item_at(bytes, i, 0))
}

// The little-endian word at a byte, with zeros past the end.
pub fn little_endian(bytes: &[u8], at: usize) -> u32
    ensures { result ≡ little_endian bytes.now at }
{
    let rest = &bytes[at.min(bytes.len())..];
    u32::from_le_bytes([
        item_at(rest, 0, 0),
        item_at(rest, 1, 0),
        item_at(rest, 2, 0),
        item_at(rest, 3, 0),
    ])
}

// Names and tokens.

// The script text and the library text: "a name's bytes come from whichever of the two texts holds it". A clause sees them as the definitions' two
// lists of bytes.
#[derive(Drop)]
pub struct Texts<'a> {
    pub script: &'a [u8],
    pub library: &'a [u8],
}

impl<'a> Model for Texts<'a> {
    ghost Value = { Texts };

    ghost view = { λ t. texts_of t.script.now t.library.now };
}

// Which of the two holds a name: the script text those of an image, the library text those of a library.
#[derive(Clone, Copy)]
pub enum Source {
    Script,
    Library,
}

impl Source {
    // Bit 24 of such a name.
    pub fn bit(self) -> u32
        ensures { result ≡ bit_of self }
    {
        self as u32
    }
}

// The length of a name or token: bits 0 to 7.
fn name_length(w: u32) -> usize
    ensures { result ≡ name_length w }
{
    (w % 0x100) as usize
}

// Where it starts: bits 8 to 23.
fn name_start(w: u32) -> usize
    ensures { result ≡ name_start w }
{
    (w / 0x100 % 0x1_0000) as usize
}

// Bit 24, which says what text holds it.
fn name_bit(w: u32) -> u32
    ensures { result ≡ name_bit w }
{
    w / 0x100_0000 % 2
}

// Which text holds it.
fn held_in(w: u32) -> Source
    ensures { bit_of result ≡ name_bit w }
{
    if name_bit(w) == 0 {
        Source::Script
    } else {
        Source::Library
    }
}

// The part of a text that a name or token word stands for, as far as the text goes.
fn bytes_in<'a>(text: &'a [u8], w: u32) -> &'a [u8]
    ensures { result.now ≡ bytes_in text.now w }
{
    let start = name_start(w).min(text.len());
    let end = (start + name_length(w)).min(text.len());
    &text[start..end]
}

// A token's bytes: a part of the script text.
#[tactic(auto, unfolding(crate::specs::Token::token_bytes))]
pub fn token_bytes<'a>(script: &'a [u8], token: u32) -> &'a [u8]
    ensures { result.now ≡ token_bytes script.now token }
{
    bytes_in(script, token)
}

// A name's bytes: a part of the script text or of the library text, by bit 24.
#[tactic(auto, unfolding(crate::specs::Text::name_bytes))]
pub fn name_bytes<'a>(texts: &Texts<'a>, w: u32) -> &'a [u8]
    ensures { result.now ≡ name_bytes texts.now w }
{
    let text = match held_in(w) {
        Source::Script => texts.script,
        Source::Library => texts.library,
    };
    bytes_in(text, w)
}

// Whether two byte strings of one length are equal: from the end, where short names differ most.
fn same_short(a: &[u8], b: &[u8]) -> bool
    requires { length a.now ≡ length b.now }
    ensures { result ≡ same_bytes a.now b.now }
{
    for i in (0..a.len()).rev() {
        if a[i] != b[i] {
            return false;
        }
    }
    true
}

// The same with no way out of the loop, so that many bytes are compared at a time where the length is known.
fn same_part(a: &[u8], b: &[u8]) -> bool
    requires { length a.now ≡ length b.now }
    ensures { result ≡ same_bytes a.now b.now }
{
    let mut differ = 0u8;
    for (x, y) in a.iter().zip(b) {
        differ |= *x ^ *y;
    }
    differ == 0
}

// The same in parts of N bytes: the last first, where names differ most. The part before it may end within it.
fn same_by<const N: usize>(a: &[u8], b: &[u8]) -> bool
    requires { (length a.now ≡ length b.now) × (0 < N) × (N ≤ length a.now) }
    ensures { result ≡ same_bytes a.now b.now }
{
    let last = a.len() - N;
    if !same_part(&a[last..last + N], &b[last..last + N]) {
        return false;
    }
    for i in (0..last).step_by(N) {
        if !same_part(&a[i..i + N], &b[i..i + N]) {
            return false;
        }
    }
    true
}

// Names of fewer bytes are short.
const SHORT: usize = 16;

// The same of long ones. It stands apart, so that it is compiled once and what compares short names stays small.
#[inline(never)]
fn same_long(a: &[u8], b: &[u8]) -> bool
    requires { (length a.now ≡ length b.now) × (16 ≤ length a.now) }
    ensures { result ≡ same_bytes a.now b.now }
{
    if a.len() < 64 {
        same_by::<16>(a, b)
    } else {
        same_by::<64>(a, b)
    }
}

// Whether two byte strings are equal. By `==` names that differ at their end, as most do, would take several times as long.
#[inline]
pub fn same_bytes(a: &[u8], b: &[u8]) -> bool
    ensures { result ≡ same_bytes a.now b.now }
{
    if a.len() != b.len() {
        return false;
    }
    if a.len() < SHORT {
        return same_short(a, b);
    }
    same_long(a, b)
}

// Whether two name words stand for one name.
pub fn same_name(texts: &Texts, a: u32, b: u32) -> bool
    ensures { result ≡ same_name texts.now a b }
{
    a == b || same_bytes(name_bytes(texts, a), name_bytes(texts, b))
}

// Whether a name word stands for a name: where it is too short for it, its bytes are not looked at.
pub fn is_name(texts: &Texts, name: &[u8], w: u32) -> bool
    ensures { result ≡ same_bytes name.now (name_bytes texts.now w) }
{
    name_length(w) >= name.len() && same_bytes(name, name_bytes(texts, w))
}

// Names in a list.

// Whether two byte strings of one length differ in the 4 bytes that end so far before the end, or in the first 4. So few that the compiler puts
// this, and what calls it, in place of the calls.
fn part_differs(a: &[u8], b: &[u8], part: usize) -> bool
    requires { (length a.now ≡ length b.now) × (4 ≤ length a.now) }
    ensures { result ≡ not (same_bytes (part_of part a.now) (part_of part b.now)) }
{
    let last = a.len() - 4;
    let i = last - part.min(last);
    !same_part(&a[i..i + 4], &b[i..i + 4])
}

// Parts from here on are none: names have 255 bytes at most.
const NO_PART: usize = 256;

// Where a list of names is gone through, a name most often differs where the one before it did. So that part is asked first: true only where
// the name word stands for another name. False tells nothing.
pub fn differs_in(texts: &Texts, name: &[u8], w: u32, part: usize) -> bool
    ensures { result ≡ differs_in texts.now name.now w part }
{
    if part >= NO_PART || name.len() < 4 {
        return false;
    }
    let bytes = name_bytes(texts, w);
    name.len() != bytes.len() || part_differs(name, bytes, part)
}

// The part to ask after one in which a name did not differ.
pub fn next_part(part: usize) -> usize
    ensures { result ≡ next_part part }
{
    if part < 1024 { part + 4 } else { 0 }
}

// The kind of a name's word, and of a token's.
pub const NAME: u32 = 12;

// Whether a word carries the payload of a name that lies in a text and is well formed, with bit 24 as told.
#[tactic(auto, unfolding(crate::specs::Name::good_payload, crate::specs::Name::lies_in, crate::specs::Name::reads_well))]
pub fn good_payload(bit: u32, text: &[u8], w: u32) -> bool
    ensures { result ≡ good_payload bit text.now w }
{
    w / 0x200_0000 % 8 == 0
        && name_bit(w) == bit
        && name_start(w) + name_length(w) <= text.len()
        && utf8::well_formed(bytes_in(text, w))
}

// Whether a word is such a name or token.
#[tactic(auto, unfolding(crate::specs::Name::good_name))]
pub fn good_name(bit: u32, text: &[u8], w: u32) -> bool
    ensures { result ≡ good_name bit text.now w }
{
    kind(w) == NAME && good_payload(bit, text, w)
}

// Spans.

// A part of the script text: its first byte and how many there are.
#[derive(Clone, Copy)]
pub struct Span {
    pub start: usize,
    pub len: usize,
}

// Where a span ends; the largest number where it would end past that.
fn end_of(s: Span) -> usize
    ensures { result ≡ end_of s }
{
    s.start.saturating_add(s.len)
}

// The span of a token.
pub fn token_span(token: u32) -> Span
    ensures { result ≡ token_span token }
{
    Span {
        start: name_start(token),
        len: name_length(token),
    }
}

// The least span that covers two.
#[tactic(auto, unfolding(crate::specs::Span::cover))]
pub fn cover_spans(a: Span, b: Span) -> Span
    ensures { result ≡ cover a b }
{
    let start = a.start.min(b.start);
    let end = end_of(a).max(end_of(b));
    Span {
        start,
        len: end - start,
    }
}
