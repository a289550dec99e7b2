// The diagnostics of a call's arguments (err.rs, `arg_mismatch`, `slot_bind_error`).
#![tactic(auto)]

ghost use Rattle.std.specs.Prelude.{ℕ};
ghost use Rattle.tok.specs.Text.{Texts, name_bytes};
ghost use Rattle.ptype.specs.Ty.{Ty};
ghost use Rattle.ptype.specs.Types.{type_at};
ghost use Rattle.err.specs.Message.{call_name, arg_mismatch, slot_conflict, slot_void};
ghost use Rattle.err.specs.Report.{Reports};
ghost use Rattle.err_text.specs.Rest.{FrontStays};

use err::{CallName, Counts};
use err_text::Piece;
use ptype::Types;
use tok::{Span, Texts};

// 20: An argument of another type.
#[tactic(auto, unfolding(err::specs::Message::arg_mismatch, err_text::specs::Pieces::said, err_text::specs::Pieces::said_after, err_text::specs::Pieces::text_of, tok::specs::Text::text))]
pub fn arg_mismatch(
    diagnostics: &mut [u32],
    messages: &mut [u8],
    counts: Counts,
    types: &Types,
    span: Span,
    callee: CallName,
    name: u32,
    expected: u32,
    provided: u32,
) -> Option<Counts>
    ensures reports { let T : Texts = types.now.texts.now in let U : ℕ → Ty = type_at types.now in
        Reports (arg_mismatch span (call_name T callee) (name_bytes T name) (U expected) (U provided))
        diagnostics.old messages.old counts diagnostics.new messages.new result }
    ensures front { FrontStays messages.old counts messages.new }
{
    let message = [
        Piece::Call(types.texts, callee),
        Piece::Text(b" expected "),
        Piece::Name(types.texts, name),
        Piece::Text(b":"),
        Piece::TypeOf(&*types, expected),
        Piece::Text(b", got "),
        Piece::Name(types.texts, name),
        Piece::Text(b":"),
        Piece::TypeOf(&*types, provided),
        Piece::Text(b" instead"),
    ];
    let primary = [
        Piece::Text(b"this argument is of type "),
        Piece::TypeOf(&*types, provided),
    ];
    err_text::tell(diagnostics, messages, counts, 20, span, &message, &primary)
}

// 21: An argument that binds a slot to another type than an earlier one did.
#[tactic(auto, unfolding(err::specs::Message::slot_conflict, err_text::specs::Pieces::said, err_text::specs::Pieces::said_after, err_text::specs::Pieces::text_of, tok::specs::Text::text))]
pub fn slot_conflict(
    diagnostics: &mut [u32],
    messages: &mut [u8],
    counts: Counts,
    types: &Types,
    span: Span,
    callee: CallName,
    slot: u32,
    existing: u32,
    new: u32,
) -> Option<Counts>
    ensures reports { let T : Texts = types.now.texts.now in let U : ℕ → Ty = type_at types.now in
        Reports (slot_conflict span (call_name T callee) (name_bytes T slot) (U existing) (U new))
        diagnostics.old messages.old counts diagnostics.new messages.new result }
    ensures front { FrontStays messages.old counts messages.new }
{
    let provided = Piece::TypeOf(&*types, new);
    let message = [
        Piece::Call(types.texts, callee),
        Piece::Text(b" can not bind "),
        Piece::Name(types.texts, slot),
        Piece::Text(b" to "),
        provided,
        Piece::Text(b", it is already bound to "),
        Piece::TypeOf(&*types, existing),
    ];
    let primary = [
        Piece::Text(b"this argument binds "),
        Piece::Name(types.texts, slot),
        Piece::Text(b" to "),
        provided,
    ];
    err_text::tell(diagnostics, messages, counts, 21, span, &message, &primary)
}

// 22: An argument that binds a slot to Void.
#[tactic(auto, unfolding(err::specs::Message::slot_void, err_text::specs::Pieces::said, err_text::specs::Pieces::said_after, err_text::specs::Pieces::text_of, tok::specs::Text::text))]
pub fn slot_void(
    diagnostics: &mut [u32],
    messages: &mut [u8],
    counts: Counts,
    texts: &Texts,
    span: Span,
    callee: CallName,
    slot: u32,
) -> Option<Counts>
    ensures reports { Reports (slot_void span (call_name texts.now callee) (name_bytes texts.now slot)) diagnostics.old messages.old counts diagnostics.new messages.new result }
    ensures front { FrontStays messages.old counts messages.new }
{
    let message = [
        Piece::Call(texts, callee),
        Piece::Text(b" can not bind "),
        Piece::Name(texts, slot),
        Piece::Text(b" to Void"),
    ];
    let primary = [Piece::Text(b"this argument is of type Void")];
    err_text::tell(diagnostics, messages, counts, 22, span, &message, &primary)
}
