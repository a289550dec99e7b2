// Writing pieces, numbers, types and signatures into a sink: the rest of a message buffer, or a window of rows (`format!`, `impl Display`).
#![tactic(auto, using(crate::specs::WritingLaws::writing))]

ghost use Rattle.std.specs.Prelude.{◌≡◌, List, ℕ, Result, ⊤, [], ◌∷◌, ◌++◌, map, ◌+◌, ◌*◌, ◌^◌, ◌≤◌, ◌<◌, get_or};
ghost use Rattle.tok.specs.Word.{kind_of};
ghost use Rattle.tok.specs.Text.{Texts};
ghost use Rattle.ptype.specs.Ty.{Fields};
ghost use Rattle.ptype.specs.Words.{fields_from, unfolded};
ghost use Rattle.ptype.specs.Types.{type_at, type_within};
ghost use Rattle.ptype.specs.TypeKind.{number_of_type};
ghost use Rattle.ptype.specs.Show.{plain_names, openings, show, show_fields, digits, decimal};
ghost use Rattle.display.specs.declared.Full.{Full};
ghost use Rattle.display.specs.Writing.{Writes};
ghost use Rattle.display.specs.Sink.{SinkLaws};
ghost use Rattle.display.specs.SinkLaws.{writer_laws};
ghost use Rattle.display.specs.Behind.{behind_of};
ghost use Rattle.display.specs.Leaf.{Leaf};
ghost use Rattle.display.specs.Joined.{separated, sig};
ghost use Rattle.display.specs.Every.{every};
ghost use Rattle.display.specs.Signature.{show_signature, arg_types, args_of, ret_of};

use ptype::{LEVELS, TypeKind, Types};
use tok::Texts;

// That a piece had no room.
#[derive(Clone, Copy)]
pub struct Full;

// The buffer that is lent to be written into, and the place where the next piece goes.
#[derive(Drop)]
pub struct Writer<'a> {
    pub buffer: &'a mut [u8],
    pub at: usize,
}

// Pieces.

impl<'a> Writer<'a> {
    // A writer into a buffer, from its start on.
    pub fn new(buffer: &'a mut [u8]) -> Writer<'a>
        ensures same_buffer { result.buffer.ghost_name ≡ buffer.entry.ghost_name }
        ensures from_the_start { (result.buffer.now ≡ buffer.old) × (result.at ≡ 0) }
    {
        Writer { buffer, at: 0 }
    }

    // Writes a piece, as far as it has room.
    pub fn put(&mut self, piece: &[u8]) -> Result<(), Full>
        ensures { Writes self.old self.new result piece.now }
    {
        let end = self.buffer.len();
        if self.at > end {
            return Err(Full);
        }
        if piece.len() <= end - self.at {
            let to = self.at + piece.len();
            slices::copy(&mut self.buffer[self.at..to], piece);
            self.at = to;
            Ok(())
        } else {
            slices::copy(&mut self.buffer[self.at..end], &piece[..end - self.at]);
            self.at = end;
            Err(Full)
        }
    }

    // Writes a piece between two others.
    pub fn put_around(&mut self, before: &[u8], piece: &[u8], after: &[u8]) -> Result<(), Full>
        ensures { Writes self.old self.new result (before.now ++ piece.now ++ after.now) }
    {
        self.put(before)?;
        self.put(piece)?;
        self.put(after)
    }

    // Writes a number in decimal.
    #[tactic(auto, unfolding(ptype::specs::Show::decimal))]
    pub fn put_decimal(&mut self, n: usize) -> Result<(), Full>
        ensures { Writes self.old self.new result (decimal n) }
    {
        put_digits(self, MOST_DIGITS, n)
    }
}

// What texts are written to, piece by piece: once a piece has no room, nothing is written any more.
pub trait Sink {
    // That a text was written to the first, which is the second now, and what was answered.
    ghost Wrote: { Self → Self → Result ⊤ Full → List ℕ → Type 0 };

    // Writes a piece, as far as it has room.
    fn write(&mut self, piece: &[u8]) -> Result<(), Full>
        ensures { Wrote self.old self.new result piece.now };

    ghost laws: { SinkLaws Self Wrote };

    // Writes a separator beside `count` other pieces: none where there are none.
    #[tactic(auto, using(crate::specs::JoinedLaws::separating))]
    final fn put_separator(&mut self, count: usize, separator: &[u8]) -> Result<(), Full>
        ensures { Wrote self.old self.new result (separated count separator.now) }
    {
        if count == 0 {
            self.write(b"")
        } else {
            self.write(separator)
        }
    }
}

impl<'a> Sink for Writer<'a> {
    ghost Wrote = { Writes };

    ghost laws = { writer_laws };

    fn write(&mut self, piece: &[u8]) -> Result<(), Full> {
        self.put(piece)
    }
}

// Numbers.

// Writes one digit.
fn put_digit(out: &mut Writer, digit: usize) -> Result<(), Full>
    requires { digit < 10 }
    ensures { Writes out.old out.new result ((48 + digit) ∷ []) }
{
    let byte = [48 + digit as u8];
    out.put(&byte)
}

// Writes a number in decimal, in `most` digits at most.
#[tactic(auto, using(crate::specs::WritingLaws::writing, crate::proofs::DigitLaws::by_digit))]
pub fn put_digits(out: &mut Writer, most: usize, n: usize) -> Result<(), Full>
    ensures { Writes out.old out.new result (digits most n) }
{
    if most == 0 {
        return out.put(b"");
    }
    if n < 10 {
        put_digit(out, n)
    } else {
        put_digits(out, most - 1, n / 10)?;
        put_digit(out, n % 10)
    }
}

// How many digits a number of 32 bits can have.
pub const MOST_DIGITS: usize = 10;

// Types.

// What stands before the inside of an Option, an Array, a Record or a Foreign.
#[tactic(auto, unfolding(ptype::specs::Show::openings, tok::specs::Text::text))]
pub fn opening(kind: TypeKind) -> &'static [u8]
    ensures { result.now ≡ get_or openings (number_of_type kind) [] }
{
    match kind {
        TypeKind::Option => b"Option<",
        TypeKind::Array => b"Array<",
        TypeKind::Record => b"Record<",
        TypeKind::Foreign => b"Foreign<",
        _ => b"",
    }
}

// The name of a type with nothing inside.
#[tactic(auto, unfolding(ptype::specs::Show::plain_names, tok::specs::Text::text))]
fn plain_name(kind: TypeKind) -> &'static [u8]
    ensures { result.now ≡ get_or plain_names (number_of_type kind) [] }
{
    match kind {
        TypeKind::Void => b"Void",
        TypeKind::Bool => b"Bool",
        TypeKind::Int => b"Int",
        TypeKind::Double => b"Double",
        TypeKind::Str => b"Str",
        TypeKind::Unknown => b"unknown",
        _ => b"",
    }
}

// Writes a type that has no type inside. No word of the types buffer is read.
fn show_leaf<S: Sink>(out: &mut S, texts: &Texts, w: u32) -> Result<(), Full>
    requires { Leaf (kind_of w) }
    ensures { S.Wrote out.old out.new result (show (unfolded texts.now [] 1 w)) }
{
    let kind = TypeKind::of(w);
    match kind {
        TypeKind::Foreign => {
            out.write(opening(kind))?;
            out.write(tok::name_bytes(texts, w))?;
            out.write(b">")
        }
        TypeKind::Slot => out.write(tok::name_bytes(texts, w)),
        _ => out.write(plain_name(kind)),
    }
}

// Writes a type, unfolded `depth` levels deep.
#[cycle(show_fields_show_within)]
fn show_within<S: Sink>(out: &mut S, types: &Types, w: u32, depth: usize) -> Result<(), Full>
    ensures { S.Wrote out.old out.new result (show (type_within types.now depth w)) }
{
    if depth == 0 {
        return out.write(plain_name(TypeKind::Unknown));
    }
    let kind = TypeKind::of(w);
    match kind {
        TypeKind::Option | TypeKind::Array => {
            out.write(opening(kind))?;
            show_within(out, types, ptype::inner(types.words, w), depth - 1)?;
            out.write(b">")
        }
        TypeKind::Record => {
            out.write(opening(kind))?;
            let i = tok::payload(w) + 1;
            let n = ptype::field_count(types.words, w);
            show_fields(out, types, types.words, i, n, depth - 1)?;
            out.write(b">")
        }
        _ => show_leaf(out, types.texts, w),
    }
}

// The index behind the two words of a field, as far as there are words: past their end all are read as 0.
fn behind(words: &[u32], i: usize) -> usize
    ensures { result ≡ behind_of words.now i }
{
    if i < words.len() { i + 2 } else { i }
}

// Writes n fields, or arguments, whose names and types stand in `words` from the index i on.
#[cycle(show_fields_show_within)]
fn show_fields<S: Sink>(
    out: &mut S,
    types: &Types,
    words: &[u32],
    i: usize,
    n: usize,
    depth: usize,
) -> Result<(), Full>
    ensures { let F : Fields = fields_from (type_within types.now depth) types.now.texts.now words.now i n in
        S.Wrote out.old out.new result (show_fields F) }
{
    let mut at = i;
    for left in (0..n).rev() {
        out.write(ptype::field_name(words, types.texts, at))?;
        out.write(b": ")?;
        show_within(out, types, ptype::field_type(words, at), depth)?;
        out.put_separator(left, b" ")?;
        at = behind(words, at);
    }
    out.write(b"")
}

// Writes a type as `Display` shows it.
pub fn show_type<S: Sink>(out: &mut S, types: &Types, w: u32) -> Result<(), Full>
    ensures { S.Wrote out.old out.new result (show (type_at types.now w)) }
{
    show_within(out, types, w, LEVELS)
}

// Writes n arguments as `Display` shows them, whose names and types stand in `words` from the index i on.
pub fn show_arguments<S: Sink>(
    out: &mut S,
    types: &Types,
    words: &[u32],
    i: usize,
    n: usize,
) -> Result<(), Full>
    ensures { let F : Fields = fields_from (type_at types.now) types.now.texts.now words.now i n in
        S.Wrote out.old out.new result (show_fields F) }
{
    show_fields(out, types, words, i, n, LEVELS)
}

// Writes the signature that `words` begins with, as `Display` shows it.
#[tactic(auto, using(crate::specs::WritingLaws::writing, crate::proofs::ShownLaws::bracket), unfolding(crate::specs::Signature::show_signature, ptype::specs::Words::ty_of, tok::specs::Text::text))]
pub fn show_signature(out: &mut Writer, types: &Types, words: &[u32]) -> Result<(), Full>
    ensures { let T : Texts = types.now.texts.now in let ts : List ℕ = types.now.words.now in
        Writes out.old out.new result (show_signature (args_of T ts words.now) (ret_of T ts words.now)) }
{
    let n = tok::word_at(words, 0) as usize;
    out.put(b"(")?;
    show_arguments(out, types, words, 1, n)?;
    out.put(b") -> ")?;
    show_type(out, types, tok::word_at(words, 1 + 2 * n))
}

// Writes the types of `count` words, joined by `, `; they stand in `words`, the first at an index and each other a step further.
fn show_every(
    out: &mut Writer,
    types: &Types,
    words: &[u32],
    first: usize,
    step: usize,
    count: usize,
) -> Result<(), Full>
    requires { (step ≤ 2) × (first + 2 * count < 2 ^ 63) }
    ensures { Writes out.old out.new result (sig (every (type_at types.now) words.now first step count)) }
{
    for done in 0..count {
        out.put_separator(done, b", ")?;
        show_type(out, types, tok::word_at(words, first + step * done))?;
    }
    out.put(b"")
}

// Writes the types of words, joined by `, `.
pub fn show_types(out: &mut Writer, types: &Types, words: &[u32]) -> Result<(), Full>
    ensures { Writes out.old out.new result (sig (map (type_at types.now) words.now)) }
{
    show_every(out, types, words, 0, 1, words.len())
}

// Writes the types of the arguments of the signature that `words` begins with, joined by `, `.
pub fn show_arg_types(out: &mut Writer, types: &Types, words: &[u32]) -> Result<(), Full>
    ensures { Writes out.old out.new result (sig (arg_types (args_of types.now.texts.now types.now.words.now words.now))) }
{
    let n = tok::word_at(words, 0) as usize;
    show_every(out, types, words, 2, 2, n)
}
