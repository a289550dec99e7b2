// A diagnostic's record, and the pieces that messages are made of (err.rs; typedefs.rs, `CallName`).
#![tactic(auto, using(display::specs::WritingLaws::writing))]

ghost use Rattle.std.specs.Prelude.{[], map, get_or, ◌≡◌, ◌++◌, ◌+◌, length};
ghost use Rattle.std.specs.Borrow.{sem, LendsBoth, Array, u8};
ghost use Rattle.tok.specs.Text.{name_bytes};
ghost use Rattle.tok.specs.Span.{token_span};
ghost use Rattle.display.specs.Writing.{Writes};
ghost use Rattle.err.specs.Message.{Diagnostic, ticked, call_name, quoted, class_of, wanted, wanted_both};
ghost use Rattle.err.specs.Report.{Reports, most_diagnostics, as_word, fits, placed, placed_answer};
ghost use Rattle.err_text.specs.Rest.{first_free, FrontStays, told};
ghost use Rattle.err_text.specs.Pieces.{text_of, said};

use display::{Full, Writer};
use err::{CallName, Counts};
use ptype::Types;
use tok::{Span, Texts};

// The record.

// The number of a diagnostic's kind, over its code.
const KIND: u32 = 0xD000_0000;

// "256 diagnostics and 65,536 message bytes"
const MOST_DIAGNOSTICS: usize = 256;

const MOST_BYTES: usize = 65_536;

// How many diagnostics there can be.
fn most_diagnostics(diagnostics: &[u32]) -> usize
    ensures { result ≡ most_diagnostics diagnostics.now }
{
    (diagnostics.len() / 6).min(MOST_DIAGNOSTICS)
}

// Whether a record is free, and texts that end at m and at p, counted from the first free byte, lie in order within the limit.
fn has_room(diagnostics: &[u32], counts: Counts, m: usize, p: usize) -> bool
    ensures { result ≡ fits diagnostics.now counts (counts.bytes + m) (counts.bytes + p) }
{
    counts.diagnostics < most_diagnostics(diagnostics)
        && m <= p
        && p <= MOST_BYTES
        && counts.bytes <= MOST_BYTES - p
}

// The low 32 bits of a number.
fn as_word(n: usize) -> u32
    ensures { result ≡ as_word n }
{
    (n % 0x1_0000_0000) as u32
}

// The messages in two parts: the bytes that are used, and the rest from the first free byte on, which a message's writer is lent.
pub fn split_at_first_free(messages: &mut [u8], counts: Counts) -> (&mut [u8], &mut [u8])
    ensures* writes_back { sem 𝓛 (LendsBoth (Array u8 0) (Array u8 0) (Array u8 0) messages.entry result ◌++◌) }
    ensures parts { (messages.old ≡ result.0.now ++ result.1.now) × (length result.0.now ≡ first_free messages.old counts) }
{
    let free = counts.bytes.min(messages.len());
    messages.split_at_mut(free)
}

// Writes the record of a diagnostic whose message was written from the start of the rest up to a place, and its primary message from there up to
// `end`, where both texts had room.
pub fn report(
    diagnostics: &mut [u32],
    counts: Counts,
    code: u8,
    span: Span,
    texts: Result<(), Full>,
    message: usize,
    end: usize,
) -> Option<Counts>
    ensures six_words { diagnostics.new ≡ placed diagnostics.old counts code span texts (counts.bytes + message) (counts.bytes + end) }
    ensures answer { result ≡ placed_answer diagnostics.old counts texts (counts.bytes + message) (counts.bytes + end) }
{
    if texts.is_err() {
        return None;
    }
    if !has_room(diagnostics, counts, message, end) {
        return None;
    }
    let record = [
        KIND + code as u32,
        as_word(span.start),
        as_word(span.len),
        counts.bytes as u32,
        message as u32,
        (end - message) as u32,
    ];
    let at = 6 * counts.diagnostics;
    diagnostics[at..at + 6].copy_from_slice(&record);
    Some(Counts {
        diagnostics: counts.diagnostics + 1,
        bytes: counts.bytes + end,
    })
}

// Pieces.

// Writes a name between backquotes.
#[tactic(auto, unfolding(tok::specs::Text::text))]
pub fn put_ticked(out: &mut Writer, texts: &Texts, name: u32) -> Result<(), Full>
    ensures { Writes out.old out.new result (ticked (name_bytes texts.now name)) }
{
    out.put_around(b"`", tok::name_bytes(texts, name), b"`")
}

// Writes a name.
pub fn put_name(out: &mut Writer, texts: &Texts, name: u32) -> Result<(), Full>
    ensures { Writes out.old out.new result (name_bytes texts.now name) }
{
    out.put(tok::name_bytes(texts, name))
}

// Writes how a call names its function, between backquotes.
#[tactic(auto, using(display::specs::WritingLaws::writing, crate::proofs::PieceLaws::calls), unfolding(tok::specs::Text::text))]
pub fn put_call_name(out: &mut Writer, texts: &Texts, callee: CallName) -> Result<(), Full>
    ensures { Writes out.old out.new result (ticked (call_name texts.now callee)) }
{
    match callee {
        CallName::Own(name) => put_ticked(out, texts, name),
        CallName::OfPackage(pkg, name) => {
            out.put(b"`")?;
            put_name(out, texts, pkg)?;
            out.put(b".")?;
            put_name(out, texts, name)?;
            out.put(b"`")
        }
    }
}

// The class of an operator: "+ - * /", "%", "== and !=", "< and >".
#[tactic(auto, unfolding(err::specs::Message::class_of))]
pub fn class_of(op: u32) -> usize
    ensures { result ≡ class_of op }
{
    let classes = [0, 0, 0, 0, 1, 2, 2, 3, 3];
    tok::item_at(&classes, op as usize, 0)
}

// The wording at an index of a list, and none past the end.
fn wording_at<'a>(all: &[&'a [u8]], i: usize) -> &'a [u8]
    ensures { result.now ≡ get_or (map (λ wording. wording.now) all.now) i [] }
{
    tok::item_at(all, i, b"")
}

// Writes the operator of a number in double quotes; for a number that no operator has, the quotes alone.
#[tactic(auto, unfolding(err::specs::Message::operators, err::specs::Message::quoted, tok::specs::Text::text))]
pub fn put_operator(out: &mut Writer, op: u32) -> Result<(), Full>
    ensures { Writes out.old out.new result (quoted op) }
{
    let operators: [&[u8]; 9] = [b"+", b"-", b"*", b"/", b"%", b"==", b"!=", b"<", b">"];
    out.put_around(b"\"", wording_at(&operators, op as usize), b"\"")
}

// Writes what an operator of a class wants, after `Unsupported type ..`.
#[tactic(auto, unfolding(err::specs::Message::wanted, tok::specs::Text::text))]
pub fn put_wanted(out: &mut Writer, class: usize) -> Result<(), Full>
    ensures { Writes out.old out.new result (wanted class) }
{
    let all: [&[u8]; 4] = [
        b", want Int or Double",
        b", want Int",
        b", want Int, Bool or Str",
        b", want Int or Double for both sides",
    ];
    out.put(wording_at(&all, class))
}

// And after `Incompatible types ..`.
#[tactic(auto, unfolding(err::specs::Message::wanted_both, tok::specs::Text::text))]
pub fn put_wanted_both(out: &mut Writer, class: usize) -> Result<(), Full>
    ensures { Writes out.old out.new result (wanted_both class) }
{
    let both: [&[u8]; 4] = [
        b"",
        b", want both sides Int",
        b", want both sides Int, Bool or Str",
        b"",
    ];
    out.put(wording_at(&both, class))
}

// What a message is made of.
#[derive(Clone, Copy)]
pub enum Piece<'a> {
    // Fixed wording.
    Text(&'a [u8]),
    // A name, and a name between backquotes.
    Name(&'a Texts<'a>, u32),
    Ticked(&'a Texts<'a>, u32),
    // How a call names its function, between backquotes.
    Call(&'a Texts<'a>, CallName),
    // The type of a word.
    TypeOf(&'a Types<'a>, u32),
    // A number in decimal.
    Number(usize),
    // The operator of a number, in double quotes.
    Operator(u32),
    // What the operator of a number wants, after `Unsupported type ..`.
    Wanted(u32),
    // And after `Incompatible types ..`.
    WantedBoth(u32),
}

// Writes a piece.
#[tactic(auto, unfolding(crate::specs::Pieces::text_of, tok::specs::Text::text))]
fn put_piece(out: &mut Writer, piece: &Piece) -> Result<(), Full>
    ensures { Writes out.old out.new result (text_of piece.now) }
{
    match *piece {
        Piece::Text(text) => out.put(text),
        Piece::Name(texts, name) => put_name(out, texts, name),
        Piece::Ticked(texts, name) => put_ticked(out, texts, name),
        Piece::Call(texts, callee) => put_call_name(out, texts, callee),
        Piece::TypeOf(types, word) => display::show_type(out, types, word),
        Piece::Number(n) => out.put_decimal(n),
        Piece::Operator(op) => put_operator(out, op),
        Piece::Wanted(op) => put_wanted(out, class_of(op)),
        Piece::WantedBoth(op) => put_wanted_both(out, class_of(op)),
    }
}

// Writes pieces, one after the other.
pub fn put_pieces(out: &mut Writer, pieces: &[Piece]) -> Result<(), Full>
    ensures { Writes out.old out.new result (said pieces.now) }
{
    for piece in pieces {
        put_piece(out, piece)?;
    }
    out.put(b"")
}

// Tells a diagnostic of these pieces.
pub fn tell(
    diagnostics: &mut [u32],
    messages: &mut [u8],
    counts: Counts,
    code: u8,
    span: Span,
    message: &[Piece],
    primary: &[Piece],
) -> Option<Counts>
    ensures reports { let d : Diagnostic = told code span (said message.now) (said primary.now) in
        Reports d diagnostics.old messages.old counts diagnostics.new messages.new result }
    ensures front { FrontStays messages.old counts messages.new }
{
    if counts.bytes > messages.len() {
        return None;
    }
    let (_, rest) = split_at_first_free(messages, counts);
    let mut out = Writer::new(rest);
    let a = put_pieces(&mut out, message);
    let end = out.at;
    let b = put_pieces(&mut out, primary);
    report(diagnostics, counts, code, span, a.and(b), end, out.at)
}

// The same, at a token of the script.
pub fn tell_at(
    diagnostics: &mut [u32],
    messages: &mut [u8],
    counts: Counts,
    code: u8,
    token: u32,
    message: &[Piece],
    primary: &[Piece],
) -> Option<Counts>
    ensures reports { let d : Diagnostic = told code (token_span token) (said message.now) (said primary.now) in
        Reports d diagnostics.old messages.old counts diagnostics.new messages.new result }
    ensures front { FrontStays messages.old counts messages.new }
{
    let span = tok::token_span(token);
    tell(diagnostics, messages, counts, code, span, message, primary)
}
