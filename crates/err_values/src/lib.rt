// The diagnostics of values: arrays, operators, casts and fields (err.rs; typecheck/lib.rs, `fuse`, `cast`).
#![tactic(auto)]

ghost use Rattle.std.specs.Prelude.{ℕ};
ghost use Rattle.tok.specs.Text.{name_bytes};
ghost use Rattle.ptype.specs.Ty.{Ty};
ghost use Rattle.ptype.specs.Types.{type_at};
ghost use Rattle.err.specs.Message.{empty_array, members_differ, unsupported, incompatible, bad_unary, redundant_cast, bad_cast, no_record, no_field_of};
ghost use Rattle.err.specs.Report.{Reports};
ghost use Rattle.err_text.specs.Rest.{FrontStays};

use err::Counts;
use err_text::Piece;
use ptype::Types;
use tok::Span;

// 1: An array literal of no members.
#[tactic(auto, unfolding(err::specs::Message::empty_array, err_text::specs::Pieces::said, err_text::specs::Pieces::said_after, err_text::specs::Pieces::text_of, tok::specs::Text::text))]
pub fn empty_array(
    diagnostics: &mut [u32],
    messages: &mut [u8],
    counts: Counts,
    token: u32,
) -> Option<Counts>
    ensures reports { Reports (empty_array token) diagnostics.old messages.old counts diagnostics.new messages.new result }
    ensures front { FrontStays messages.old counts messages.new }
{
    let message = [Piece::Text(b"Can not infer the element type of an empty array")];
    let primary = [Piece::Text(b"empty array")];
    err_text::tell_at(diagnostics, messages, counts, 1, token, &message, &primary)
}

// 2: An array member whose type is not the first member's.
#[tactic(auto, unfolding(err::specs::Message::members_differ, err_text::specs::Pieces::said, err_text::specs::Pieces::said_after, err_text::specs::Pieces::text_of, tok::specs::Text::text))]
pub fn members_differ(
    diagnostics: &mut [u32],
    messages: &mut [u8],
    counts: Counts,
    types: &Types,
    span: Span,
    first: u32,
    ty: u32,
) -> Option<Counts>
    ensures reports { let U : ℕ → Ty = type_at types.now in
        Reports (members_differ span (U first) (U ty)) diagnostics.old messages.old counts diagnostics.new messages.new result }
    ensures front { FrontStays messages.old counts messages.new }
{
    let message = [
        Piece::Text(b"Array members must all have the same type, expected "),
        Piece::TypeOf(types, first),
        Piece::Text(b" but got "),
        Piece::TypeOf(types, ty),
    ];
    let primary = [
        Piece::Text(b"this member is of type "),
        Piece::TypeOf(types, ty),
    ];
    err_text::tell(diagnostics, messages, counts, 2, span, &message, &primary)
}

// 4: Operands of one type that the operator does not take.
#[tactic(auto, unfolding(err::specs::Message::unsupported, err_text::specs::Pieces::said, err_text::specs::Pieces::said_after, err_text::specs::Pieces::text_of, tok::specs::Text::text))]
pub fn unsupported(
    diagnostics: &mut [u32],
    messages: &mut [u8],
    counts: Counts,
    types: &Types,
    token: u32,
    op: u32,
    left: u32,
) -> Option<Counts>
    ensures reports { let U : ℕ → Ty = type_at types.now in
        Reports (unsupported token op (U left)) diagnostics.old messages.old counts diagnostics.new messages.new result }
    ensures front { FrontStays messages.old counts messages.new }
{
    let message = [
        Piece::Text(b"Unsupported type "),
        Piece::TypeOf(types, left),
        Piece::Text(b" for "),
        Piece::Operator(op),
        Piece::Wanted(op),
    ];
    err_text::tell_at(diagnostics, messages, counts, 4, token, &message, &[])
}

// 5: Operands of two types.
#[tactic(auto, unfolding(err::specs::Message::incompatible, err_text::specs::Pieces::said, err_text::specs::Pieces::said_after, err_text::specs::Pieces::text_of, tok::specs::Text::text))]
pub fn incompatible(
    diagnostics: &mut [u32],
    messages: &mut [u8],
    counts: Counts,
    types: &Types,
    token: u32,
    op: u32,
    left: u32,
    right: u32,
) -> Option<Counts>
    ensures reports { let U : ℕ → Ty = type_at types.now in
        Reports (incompatible token op (U left) (U right)) diagnostics.old messages.old counts diagnostics.new messages.new result }
    ensures front { FrontStays messages.old counts messages.new }
{
    let message = [
        Piece::Text(b"Incompatible types "),
        Piece::TypeOf(types, left),
        Piece::Text(b" and "),
        Piece::TypeOf(types, right),
        Piece::Text(b" for "),
        Piece::Operator(op),
        Piece::WantedBoth(op),
    ];
    err_text::tell_at(diagnostics, messages, counts, 5, token, &message, &[])
}

// 6: An operand that a unary operator does not take.
#[tactic(auto, unfolding(err::specs::Message::bad_unary, err_text::specs::Pieces::said, err_text::specs::Pieces::said_after, err_text::specs::Pieces::text_of, tok::specs::Text::text))]
pub fn bad_unary(
    diagnostics: &mut [u32],
    messages: &mut [u8],
    counts: Counts,
    types: &Types,
    token: u32,
    op: u32,
    inner: u32,
) -> Option<Counts>
    ensures reports { let U : ℕ → Ty = type_at types.now in
        Reports (bad_unary token op (U inner)) diagnostics.old messages.old counts diagnostics.new messages.new result }
    ensures front { FrontStays messages.old counts messages.new }
{
    let message = [
        Piece::Text(b"Unary "),
        Piece::Operator(op),
        Piece::Text(b" requires Int or Double, got "),
        Piece::TypeOf(types, inner),
    ];
    err_text::tell_at(diagnostics, messages, counts, 6, token, &message, &[])
}

// 10: A cast to the type that the operand has.
#[tactic(auto, unfolding(err::specs::Message::redundant_cast, err_text::specs::Pieces::said, err_text::specs::Pieces::said_after, err_text::specs::Pieces::text_of, tok::specs::Text::text))]
pub fn redundant_cast(
    diagnostics: &mut [u32],
    messages: &mut [u8],
    counts: Counts,
    types: &Types,
    token: u32,
    ty: u32,
) -> Option<Counts>
    ensures reports { let U : ℕ → Ty = type_at types.now in
        Reports (redundant_cast token (U ty)) diagnostics.old messages.old counts diagnostics.new messages.new result }
    ensures front { FrontStays messages.old counts messages.new }
{
    let message = [
        Piece::Text(b"Can not cast "),
        Piece::TypeOf(types, ty),
        Piece::Text(b" to "),
        Piece::TypeOf(types, ty),
    ];
    let primary = [Piece::Text(b"unnecessary cast")];
    err_text::tell_at(diagnostics, messages, counts, 10, token, &message, &primary)
}

// 11: A cast that does not exist.
#[tactic(auto, unfolding(err::specs::Message::bad_cast, err_text::specs::Pieces::said, err_text::specs::Pieces::said_after, err_text::specs::Pieces::text_of, tok::specs::Text::text))]
pub fn bad_cast(
    diagnostics: &mut [u32],
    messages: &mut [u8],
    counts: Counts,
    types: &Types,
    token: u32,
    from: u32,
    to: u32,
) -> Option<Counts>
    ensures reports { let U : ℕ → Ty = type_at types.now in
        Reports (bad_cast token (U from) (U to)) diagnostics.old messages.old counts diagnostics.new messages.new result }
    ensures front { FrontStays messages.old counts messages.new }
{
    let message = [
        Piece::Text(b"Can not cast "),
        Piece::TypeOf(types, from),
        Piece::Text(b" to "),
        Piece::TypeOf(types, to),
    ];
    err_text::tell_at(diagnostics, messages, counts, 11, token, &message, &[])
}

// 12: A field of what is no record.
#[tactic(auto, unfolding(err::specs::Message::no_record, err_text::specs::Pieces::said, err_text::specs::Pieces::said_after, err_text::specs::Pieces::text_of, tok::specs::Text::text))]
pub fn no_record(
    diagnostics: &mut [u32],
    messages: &mut [u8],
    counts: Counts,
    types: &Types,
    name: u32,
    ty: u32,
) -> Option<Counts>
    ensures reports { let U : ℕ → Ty = type_at types.now in
        Reports (no_record name (U ty)) diagnostics.old messages.old counts diagnostics.new messages.new result }
    ensures front { FrontStays messages.old counts messages.new }
{
    let message = [
        Piece::TypeOf(types, ty),
        Piece::Text(b" can not be indexed in this way"),
    ];
    err_text::tell_at(diagnostics, messages, counts, 12, name, &message, &[])
}

// 13: A field that the record does not have.
#[tactic(auto, unfolding(err::specs::Message::no_field_of, err_text::specs::Pieces::said, err_text::specs::Pieces::said_after, err_text::specs::Pieces::text_of, tok::specs::Text::text))]
pub fn no_field(
    diagnostics: &mut [u32],
    messages: &mut [u8],
    counts: Counts,
    types: &Types,
    name: u32,
    ty: u32,
) -> Option<Counts>
    ensures reports { let U : ℕ → Ty = type_at types.now in
        Reports (no_field_of name (U ty) (name_bytes types.now.texts.now name)) diagnostics.old messages.old counts diagnostics.new messages.new result }
    ensures front { FrontStays messages.old counts messages.new }
{
    let message = [
        Piece::TypeOf(&*types, ty),
        Piece::Text(b" does not have a field called "),
        Piece::Name(types.texts, name),
    ];
    err_text::tell_at(diagnostics, messages, counts, 13, name, &message, &[])
}
