// The diagnostics of names, functions, matches and imports (typecheck/lib.rs).
#![tactic(auto)]

ghost use Rattle.std.specs.Prelude.{ℕ, List};
ghost use Rattle.tok.specs.Text.{name_bytes};
ghost use Rattle.ptype.specs.Ty.{Ty};
ghost use Rattle.ptype.specs.Types.{type_at};
ghost use Rattle.err.specs.Message.{no_binding, let_void, defined_already, bad_return, bad_condition, match_cases, empty_import, no_import};
ghost use Rattle.err.specs.Report.{Reports};
ghost use Rattle.err_text.specs.Rest.{FrontStays};

use err::Counts;
use err_text::Piece;
use ptype::Types;
use tok::Texts;

// 3: A name that is not bound.
#[tactic(auto, unfolding(err::specs::Message::no_binding, err_text::specs::Pieces::said, err_text::specs::Pieces::said_after, err_text::specs::Pieces::text_of, tok::specs::Text::text))]
pub fn no_binding(
    diagnostics: &mut [u32],
    messages: &mut [u8],
    counts: Counts,
    texts: &Texts,
    name: u32,
) -> Option<Counts>
    ensures reports { Reports (no_binding name (name_bytes texts.now name)) diagnostics.old messages.old counts diagnostics.new messages.new result }
    ensures front { FrontStays messages.old counts messages.new }
{
    let message = [
        Piece::Text(b"binding "),
        Piece::Ticked(texts, name),
        Piece::Text(b" not found"),
    ];
    err_text::tell_at(diagnostics, messages, counts, 3, name, &message, &[])
}

// 7: A let whose right side returns nothing.
#[tactic(auto, unfolding(err::specs::Message::let_void, err_text::specs::Pieces::said, err_text::specs::Pieces::said_after, err_text::specs::Pieces::text_of, tok::specs::Text::text))]
pub fn let_void(
    diagnostics: &mut [u32],
    messages: &mut [u8],
    counts: Counts,
    name: u32,
) -> Option<Counts>
    ensures reports { Reports (let_void name) diagnostics.old messages.old counts diagnostics.new messages.new result }
    ensures front { FrontStays messages.old counts messages.new }
{
    let message = [Piece::Text(b"RHS of let has to return a value, but it didnt")];
    err_text::tell_at(diagnostics, messages, counts, 7, name, &message, &[])
}

// 8: A function of a name already met.
#[tactic(auto, unfolding(err::specs::Message::defined_already, err_text::specs::Pieces::said, err_text::specs::Pieces::said_after, err_text::specs::Pieces::text_of, tok::specs::Text::text))]
pub fn defined_already(
    diagnostics: &mut [u32],
    messages: &mut [u8],
    counts: Counts,
    texts: &Texts,
    name: u32,
) -> Option<Counts>
    ensures reports { Reports (defined_already name (name_bytes texts.now name)) diagnostics.old messages.old counts diagnostics.new messages.new result }
    ensures front { FrontStays messages.old counts messages.new }
{
    let message = [
        Piece::Ticked(texts, name),
        Piece::Text(b" is already defined"),
    ];
    err_text::tell_at(diagnostics, messages, counts, 8, name, &message, &[])
}

// 9: A function whose body is not of its return type. The token is the return type's.
#[tactic(auto, unfolding(err::specs::Message::bad_return, err_text::specs::Pieces::said, err_text::specs::Pieces::said_after, err_text::specs::Pieces::text_of, tok::specs::Text::text))]
pub fn bad_return(
    diagnostics: &mut [u32],
    messages: &mut [u8],
    counts: Counts,
    types: &Types,
    token: u32,
    name: u32,
    ret: u32,
    computed: u32,
) -> Option<Counts>
    ensures reports { let N : List ℕ = name_bytes types.now.texts.now name in let U : ℕ → Ty = type_at types.now in
        Reports (bad_return token N (U ret) (U computed)) diagnostics.old messages.old counts diagnostics.new messages.new result }
    ensures front { FrontStays messages.old counts messages.new }
{
    let message = [
        Piece::Ticked(types.texts, name),
        Piece::Text(b" should return "),
        Piece::TypeOf(&*types, ret),
        Piece::Text(b", but returns "),
        Piece::TypeOf(&*types, computed),
    ];
    err_text::tell_at(diagnostics, messages, counts, 9, token, &message, &[])
}

// 23: A match condition that is not Bool.
#[tactic(auto, unfolding(err::specs::Message::bad_condition, err_text::specs::Pieces::said, err_text::specs::Pieces::said_after, err_text::specs::Pieces::text_of, tok::specs::Text::text))]
pub fn bad_condition(
    diagnostics: &mut [u32],
    messages: &mut [u8],
    counts: Counts,
    types: &Types,
    token: u32,
    ty: u32,
) -> Option<Counts>
    ensures reports { let U : ℕ → Ty = type_at types.now in
        Reports (bad_condition token (U ty)) diagnostics.old messages.old counts diagnostics.new messages.new result }
    ensures front { FrontStays messages.old counts messages.new }
{
    let message = [
        Piece::Text(b"Match conditions must be Bool, got "),
        Piece::TypeOf(types, ty),
        Piece::Text(b" instead"),
    ];
    err_text::tell_at(diagnostics, messages, counts, 23, token, &message, &[])
}

// 24: A match case that is not of the default's type.
#[tactic(auto, unfolding(err::specs::Message::match_cases, err_text::specs::Pieces::said, err_text::specs::Pieces::said_after, err_text::specs::Pieces::text_of, tok::specs::Text::text))]
pub fn match_cases(
    diagnostics: &mut [u32],
    messages: &mut [u8],
    counts: Counts,
    types: &Types,
    token: u32,
    default: u32,
    ty: u32,
) -> Option<Counts>
    ensures reports { let U : ℕ → Ty = type_at types.now in
        Reports (match_cases token (U default) (U ty)) diagnostics.old messages.old counts diagnostics.new messages.new result }
    ensures front { FrontStays messages.old counts messages.new }
{
    let message = [
        Piece::Text(b"Match cases must resolve to the same type, but got "),
        Piece::TypeOf(types, default),
        Piece::Text(b" and "),
        Piece::TypeOf(types, ty),
    ];
    err_text::tell_at(diagnostics, messages, counts, 24, token, &message, &[])
}

// 25: An import of no paths.
#[tactic(auto, unfolding(err::specs::Message::empty_import, err_text::specs::Pieces::said, err_text::specs::Pieces::said_after, err_text::specs::Pieces::text_of, tok::specs::Text::text))]
pub fn empty_import(
    diagnostics: &mut [u32],
    messages: &mut [u8],
    counts: Counts,
    token: u32,
) -> Option<Counts>
    ensures reports { Reports (empty_import token) diagnostics.old messages.old counts diagnostics.new messages.new result }
    ensures front { FrontStays messages.old counts messages.new }
{
    let message = [Piece::Text(b"Import without any paths to import is considered invalid")];
    err_text::tell_at(diagnostics, messages, counts, 25, token, &message, &[])
}

// 26: A path that names no package of the library.
#[tactic(auto, unfolding(err::specs::Message::no_import, err_text::specs::Pieces::said, err_text::specs::Pieces::said_after, err_text::specs::Pieces::text_of, tok::specs::Text::text))]
pub fn no_import(
    diagnostics: &mut [u32],
    messages: &mut [u8],
    counts: Counts,
    texts: &Texts,
    path: u32,
) -> Option<Counts>
    ensures reports { Reports (no_import path (name_bytes texts.now path)) diagnostics.old messages.old counts diagnostics.new messages.new result }
    ensures front { FrontStays messages.old counts messages.new }
{
    let message = [
        Piece::Text(b"Wasnt able to find a package named "),
        Piece::Ticked(texts, path),
    ];
    err_text::tell_at(diagnostics, messages, counts, 26, path, &message, &[])
}
