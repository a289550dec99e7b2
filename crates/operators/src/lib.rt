// Operators and casts (typecheck/lib.rs: `set_known`, `fuse`, the Unary arm, `cast`).
// The buffers are lent in one order: slots, types, diagnostics, messages. Who only reads types takes them with the texts.
#![tactic(auto)]

ghost use Rattle.std.specs.Prelude.{◌≡◌, ◌&&◌, ◌||◌, List, ℕ, ◌<◌, cond, eqb, leb, set, None, Some};
ghost use Rattle.tok.specs.Word.{word_of};
ghost use Rattle.ptype.specs.TypeKind.{kind_of_type, number_of_type};
ghost use Rattle.library.specs.Package.{Package};
ghost use Rattle.rules.specs.Steps.{set_known};
ghost use Rattle.rules.specs.Operators.{result_kind, fuse, unary, castable, cast};
ghost use Rattle.state.specs.Context.{ctx};
ghost use Rattle.state.specs.World.{Steps};

use ptype::{TypeKind, Types};
use rules::Answer;
use state::{Step, Used};
use tok::word_at;

// Slots.

// Stores a slot's type word, where there is such a slot.
pub fn store(slots: &mut [u32], slot: usize, word: u32)
    ensures { slots.new ≡ set slots.old slot word }
{
    tok::set_item(slots, slot, word);
}

// Typechecker::set_known: a slot's type.
#[tactic(auto, using(crate::proofs::Returns::known_steps))]
pub fn set_known(slots: &mut [u32], used: Used, slot: u32, word: u32) -> Step<Answer>
    ensures { (t d m : List ℕ) → Steps (set_known slot word) slots.old t d m used slots.new t d m result }
{
    store(slots, slot as usize, word);
    Ok((Answer::Known(slot), used))
}

// Operators.

// The operator rules: left kind, then right kind (none, Void, Bool, Int, Double, Str); the kind of the result, or none. Kinds from 6 on have no
// row: no operator takes them. A kind is kept in a byte: the compiler builds a table of enums anew in the frame of who reads it, and a look-up takes
// 1.8 times as long; a table of numbers it keeps with the code.
const NONE: u8 = TypeKind::None as u8;

const BOOL: u8 = TypeKind::Bool as u8;

const INT: u8 = TypeKind::Int as u8;

const DOUBLE: u8 = TypeKind::Double as u8;

// "+ - * / take Int, Int or Double, Double"
const ARITHMETIC: [[u8; 6]; 6] = [
    [NONE, NONE, NONE, NONE, NONE, NONE],
    [NONE, NONE, NONE, NONE, NONE, NONE],
    [NONE, NONE, NONE, NONE, NONE, NONE],
    [NONE, NONE, NONE, INT, NONE, NONE],
    [NONE, NONE, NONE, NONE, DOUBLE, NONE],
    [NONE, NONE, NONE, NONE, NONE, NONE],
];

// "% Int, Int"
const REMAINDER: [[u8; 6]; 6] = [
    [NONE, NONE, NONE, NONE, NONE, NONE],
    [NONE, NONE, NONE, NONE, NONE, NONE],
    [NONE, NONE, NONE, NONE, NONE, NONE],
    [NONE, NONE, NONE, INT, NONE, NONE],
    [NONE, NONE, NONE, NONE, NONE, NONE],
    [NONE, NONE, NONE, NONE, NONE, NONE],
];

// "== and != two Int, two Bool or two Str"
const EQUALITY: [[u8; 6]; 6] = [
    [NONE, NONE, NONE, NONE, NONE, NONE],
    [NONE, NONE, NONE, NONE, NONE, NONE],
    [NONE, NONE, BOOL, NONE, NONE, NONE],
    [NONE, NONE, NONE, BOOL, NONE, NONE],
    [NONE, NONE, NONE, NONE, NONE, NONE],
    [NONE, NONE, NONE, NONE, NONE, BOOL],
];

// "< and > as +"
const ORDER: [[u8; 6]; 6] = [
    [NONE, NONE, NONE, NONE, NONE, NONE],
    [NONE, NONE, NONE, NONE, NONE, NONE],
    [NONE, NONE, NONE, NONE, NONE, NONE],
    [NONE, NONE, NONE, BOOL, NONE, NONE],
    [NONE, NONE, NONE, NONE, BOOL, NONE],
    [NONE, NONE, NONE, NONE, NONE, NONE],
];

// "a table of tables": by the class of the operator.
const TABLES: [[[u8; 6]; 6]; 4] = [ARITHMETIC, REMAINDER, EQUALITY, ORDER];

// The kind of an operator's result, by the kinds of its operands; none where it does not take them.
fn result_kind(op: u32, left: TypeKind, right: TypeKind) -> Option<TypeKind>
    ensures { let k = result_kind op (number_of_type left) (number_of_type right) in result ≡ cond (eqb k 0) None (Some (kind_of_type k)) }
{
    let class = err_text::class_of(op);
    let l = left.number() as usize;
    let r = right.number() as usize;
    if class >= 4 || l >= 6 || r >= 6 {
        return None;
    }
    match TypeKind::from(TABLES[class][l][r] as u32) {
        TypeKind::None => None,
        kind => Some(kind),
    }
}

// Typechecker::fuse, of two slots: the table's type; else 4 where both types are equal, 5 where they differ.
pub fn fuse(
    slots: &mut [u32],
    types: &Types,
    diagnostics: &mut [u32],
    messages: &mut [u8],
    used: Used,
    n: u32,
    slot: u32,
    token: u32,
    op: u32,
    left: u32,
    right: u32,
) -> Step<Answer>
    ensures { ((ls : List Package) (v : ℕ) → Steps (fuse (ctx types.now.texts.now ls v) n slot token op left right) slots.old types.now.words.now diagnostics.old
        messages.old used slots.new types.now.words.now diagnostics.new messages.new result) }
{
    let l = word_at(slots, left as usize);
    let r = word_at(slots, right as usize);
    if let Some(common) = result_kind(op, TypeKind::of(l), TypeKind::of(r)) {
        return set_known(slots, used, slot, common.word(0));
    }
    let counts = used.told;
    if ptype::same_type(types, l, r) {
        let told = err_values::unsupported(diagnostics, messages, counts, types, token, op, l);
        return state::told(n, used, told, Answer::Poison);
    }
    let told = err_values::incompatible(diagnostics, messages, counts, types, token, op, l, r);
    state::told(n, used, told, Answer::Poison)
}

// The number of the operator -; that of + is 0.
const MINUS: u32 = 1;

// Whether a unary operator takes a kind: + and - take Int and Double.
fn takes(op: u32, kind: TypeKind) -> bool
    ensures { result ≡ leb op 1 && (eqb (number_of_type kind) 3 || eqb (number_of_type kind) 4) }
{
    op <= MINUS && matches!(kind, TypeKind::Int | TypeKind::Double)
}

// The Unary arm, of a slot: Int or Double under + or -, else 6.
pub fn unary(
    slots: &mut [u32],
    types: &Types,
    diagnostics: &mut [u32],
    messages: &mut [u8],
    used: Used,
    n: u32,
    slot: u32,
    token: u32,
    op: u32,
    right: u32,
) -> Step<Answer>
    ensures { ((ls : List Package) (v : ℕ) → Steps (unary (ctx types.now.texts.now ls v) n slot token op right) slots.old types.now.words.now diagnostics.old messages.old
        used slots.new types.now.words.now diagnostics.new messages.new result) }
{
    let r = word_at(slots, right as usize);
    let kind = TypeKind::of(r);
    if takes(op, kind) {
        return set_known(slots, used, slot, kind.word(0));
    }
    let counts = used.told;
    let told = err_values::bad_unary(diagnostics, messages, counts, types, token, op, r);
    state::told(n, used, told, Answer::Poison)
}

// Casts.

// Whether there is a cast from one kind to another.
#[tactic(auto, unfolding(rules::specs::Operators::castable))]
fn castable(from: TypeKind, to: TypeKind) -> bool
    ensures { result ≡ castable (number_of_type from) (number_of_type to) }
{
    match from {
        TypeKind::Int => matches!(to, TypeKind::Double | TypeKind::Bool),
        TypeKind::Double | TypeKind::Bool => matches!(to, TypeKind::Int),
        _ => false,
    }
}

// Typechecker::cast, of a slot to a type: a cast to the same type is reported (10), yet known; one that does not exist is 11.
pub fn cast(
    slots: &mut [u32],
    types: &Types,
    diagnostics: &mut [u32],
    messages: &mut [u8],
    used: Used,
    n: u32,
    slot: u32,
    token: u32,
    left: u32,
    to: u32,
) -> Step<Answer>
    ensures { ((ls : List Package) (v : ℕ) → Steps (cast (ctx types.now.texts.now ls v) n slot token left to) slots.old types.now.words.now diagnostics.old messages.old used
        slots.new types.now.words.now diagnostics.new messages.new result) }
{
    let i = word_at(slots, left as usize);
    if castable(TypeKind::of(i), TypeKind::of(to)) {
        return set_known(slots, used, slot, to);
    }
    let counts = used.told;
    if !ptype::same_type(types, i, to) {
        let bad = err_values::bad_cast(diagnostics, messages, counts, types, token, i, to);
        return state::told(n, used, bad, Answer::Poison);
    }
    let reported = err_values::redundant_cast(diagnostics, messages, counts, types, token, i);
    let (_, used) = state::told(n, used, reported, ())?;
    set_known(slots, used, slot, to)
}
