// The diagnostics of calls (err.rs; typecheck/lib.rs, `resolve_call`, `resolve_pkg_call`, `check_call_args`).
#![tactic(auto)]

ghost use Rattle.std.specs.Prelude.{ℕ, List, map};
ghost use Rattle.tok.specs.Text.{Texts, name_bytes, text};
ghost use Rattle.ptype.specs.Ty.{Ty};
ghost use Rattle.ptype.specs.Types.{type_at};
ghost use Rattle.display.specs.Writing.{Writes};
ghost use Rattle.display.specs.Joined.{joined, sig};
ghost use Rattle.err.specs.Message.{pkg_name, call_name, no_specialisation, call_through_field, missing_package, undefined_in_package, undefined_own, argument_count};
ghost use Rattle.err.specs.Report.{Reports};
ghost use Rattle.err_text.specs.Rest.{FrontStays};
ghost use Rattle.err_calls.specs.Candidates.{candidate_at, candidates_at, WritesCandidates};

use display::{Full, Sink, Writer};
use err::{CallName, Counts};
use err_text::Piece;
use ptype::Types;
use tok::Texts;

// 14: A call through a field of what is no name.
#[tactic(auto, unfolding(err::specs::Message::call_through_field, err_text::specs::Pieces::said, err_text::specs::Pieces::said_after, err_text::specs::Pieces::text_of, tok::specs::Text::text))]
pub fn call_through_field(
    diagnostics: &mut [u32],
    messages: &mut [u8],
    counts: Counts,
    name: u32,
) -> Option<Counts>
    ensures reports { Reports (call_through_field name) diagnostics.old messages.old counts diagnostics.new messages.new result }
    ensures front { FrontStays messages.old counts messages.new }
{
    let message = [Piece::Text(b"only package functions can be called through field syntax")];
    err_text::tell_at(diagnostics, messages, counts, 14, name, &message, &[])
}

// 15: A call into a package that is not held.
#[tactic(auto, unfolding(err::specs::Message::missing_package, err_text::specs::Pieces::said, err_text::specs::Pieces::said_after, err_text::specs::Pieces::text_of, tok::specs::Text::text))]
pub fn missing_package(
    diagnostics: &mut [u32],
    messages: &mut [u8],
    counts: Counts,
    texts: &Texts,
    pkg: u32,
) -> Option<Counts>
    ensures reports { Reports (missing_package pkg (name_bytes texts.now pkg)) diagnostics.old messages.old counts diagnostics.new messages.new result }
    ensures front { FrontStays messages.old counts messages.new }
{
    let message = [
        Piece::Text(b"Can't find package "),
        Piece::Ticked(texts, pkg),
    ];
    let primary = [Piece::Text(b"package used here")];
    err_text::tell_at(diagnostics, messages, counts, 15, pkg, &message, &primary)
}

// 16: A call of a function that the package does not have.
pub fn undefined_in_package(
    diagnostics: &mut [u32],
    messages: &mut [u8],
    counts: Counts,
    texts: &Texts,
    pkg: u32,
    name: u32,
) -> Option<Counts>
    ensures reports { Reports (undefined_in_package name (pkg_name (name_bytes texts.now pkg) (name_bytes texts.now name))) diagnostics.old messages.old counts diagnostics.new
        messages.new result }
    ensures front { FrontStays messages.old counts messages.new }
{
    let message = [
        Piece::Text(b"Call to undefined function "),
        Piece::Call(texts, CallName::OfPackage(pkg, name)),
    ];
    err_text::tell_at(diagnostics, messages, counts, 16, name, &message, &[])
}

// 17: A call of a function that the script does not have.
#[tactic(auto, unfolding(err::specs::Message::undefined_own, err_text::specs::Pieces::said, err_text::specs::Pieces::said_after, err_text::specs::Pieces::text_of, tok::specs::Text::text))]
pub fn undefined_own(
    diagnostics: &mut [u32],
    messages: &mut [u8],
    counts: Counts,
    texts: &Texts,
    name: u32,
) -> Option<Counts>
    ensures reports { Reports (undefined_own name (name_bytes texts.now name)) diagnostics.old messages.old counts diagnostics.new messages.new result }
    ensures front { FrontStays messages.old counts messages.new }
{
    let message = [
        Piece::Text(b"Call to undefined function "),
        Piece::Ticked(texts, name),
    ];
    err_text::tell_at(diagnostics, messages, counts, 17, name, &message, &[])
}

// Writes the types of the arguments of the signature that begins at a place of `words`, joined by `, `; none where the place is past them.
pub fn put_candidate(out: &mut Writer, types: &Types, words: &[u32], at: usize) -> Result<(), Full>
    ensures { let T : Texts = types.now.texts.now in
        Writes out.old out.new result (sig (candidate_at T types.now.words.now words.now at)) }
{
    display::show_arg_types(out, types, &words[at.min(words.len())..])
}

// Writes the candidates whose signatures begin at the places `starts` of `words`, joined by ` | `.
fn put_candidates(
    out: &mut Writer,
    types: &Types,
    words: &[u32],
    starts: &[u32],
) -> Result<(), Full>
    ensures { let T : Texts = types.now.texts.now in
        let cs : List (List Ty) = candidates_at T types.now.words.now words.now starts.now in
        Writes out.old out.new result (joined (text " | ") (map sig cs)) }
{
    for (i, start) in starts.iter().enumerate() {
        out.put_separator(i, b" | ")?;
        put_candidate(out, types, words, *start as usize)?;
    }
    out.put(b"")
}

// 18: A call of a group of several, none of which takes these argument types. `candidates` writes those that it has, joined by ` | `.
pub fn no_specialisation<F: Fn(&mut Writer) -> Result<(), Full>>(
    diagnostics: &mut [u32],
    messages: &mut [u8],
    counts: Counts,
    types: &Types,
    token: u32,
    callee: CallName,
    provided: &[u32],
    candidates: F,
) -> Option<Counts>
    requires { F.IsAlwaysCallable candidates }
    ensures reports { let T : Texts = types.now.texts.now in let U : ℕ → Ty = type_at types.now in
        ((cs : List (List Ty)) → WritesCandidates (F.post candidates) cs →
        Reports (no_specialisation token (call_name T callee) (map U provided.now) cs) diagnostics.old messages.old counts diagnostics.new messages.new result) }
    ensures front { FrontStays messages.old counts messages.new }
{
    let (_, rest) = err_text::split_at_first_free(messages, counts);
    let mut out = Writer::new(rest);
    let a = out.put(b"no specialisation of ");
    let b = a.and(err_text::put_call_name(&mut out, types.texts, callee));
    let c = b.and(out.put(b" accepts ("));
    let d = c.and(display::show_types(&mut out, types, provided));
    let e = d.and(out.put(b"); available: "));
    let f = e.and(candidates(&mut out));
    err_text::report(
        diagnostics,
        counts,
        18,
        tok::token_span(token),
        f,
        out.at,
        out.at,
    )
}

// The same, of candidates whose signatures begin at the places `starts` of `words`.
pub fn no_specialisation_at(
    diagnostics: &mut [u32],
    messages: &mut [u8],
    counts: Counts,
    types: &Types,
    token: u32,
    callee: CallName,
    provided: &[u32],
    words: &[u32],
    starts: &[u32],
) -> Option<Counts>
    ensures reports { let T : Texts = types.now.texts.now in let U : ℕ → Ty = type_at types.now in
        let cs : List (List Ty) = candidates_at T types.now.words.now words.now starts.now in
        Reports (no_specialisation token (call_name T callee) (map U provided.now) cs) diagnostics.old messages.old counts diagnostics.new messages.new result }
    ensures front { FrontStays messages.old counts messages.new }
{
    no_specialisation(
        diagnostics,
        messages,
        counts,
        types,
        token,
        callee,
        provided,
        |out: &mut Writer| put_candidates(out, types, words, starts),
    )
}

// 19: A call with another number of arguments.
#[tactic(auto, unfolding(err::specs::Message::argument_count, err_text::specs::Pieces::said, err_text::specs::Pieces::said_after, err_text::specs::Pieces::text_of, tok::specs::Text::text))]
pub fn argument_count(
    diagnostics: &mut [u32],
    messages: &mut [u8],
    counts: Counts,
    texts: &Texts,
    token: u32,
    callee: CallName,
    required: usize,
    given: usize,
) -> Option<Counts>
    ensures reports { Reports (argument_count token (call_name texts.now callee) required given) diagnostics.old messages.old counts diagnostics.new messages.new result }
    ensures front { FrontStays messages.old counts messages.new }
{
    let message = [
        Piece::Call(texts, callee),
        Piece::Text(b" requires "),
        Piece::Number(required),
        Piece::Text(b" arguments, got "),
        Piece::Number(given),
    ];
    err_text::tell_at(diagnostics, messages, counts, 19, token, &message, &[])
}
