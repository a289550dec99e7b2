// Fields, array members, match conditions and cases, let bindings and returns (typecheck/lib.rs, `node`).
// The buffers are lent in one order: slots, types, diagnostics, messages. Who only reads types takes them with the texts.
#![tactic(auto)]

ghost use Rattle.std.specs.Prelude.{◌≡◌, List, ℕ, ◌+◌};
ghost use Rattle.tok.specs.Word.{payload_of};
ghost use Rattle.tok.specs.Text.{Texts, name_bytes};
ghost use Rattle.tok.specs.Step.{ok};
ghost use Rattle.ptype.specs.Words.{field_count};
ghost use Rattle.library.specs.Package.{Package};
ghost use Rattle.ast.specs.TypeExpr.{TypeExpr, type_token};
ghost use Rattle.err.specs.Message.{empty_array};
ghost use Rattle.rules.specs.Steps.{poison};
ghost use Rattle.rules.specs.Rules.{find_field, field_type, field, member_types, member, array_of, condition, let_binding, check_return};
ghost use Rattle.state.specs.Context.{ctx};
ghost use Rattle.state.specs.declared.Used.{Used};
ghost use Rattle.state.specs.World.{Steps, with_answer};
ghost use Rattle.scope.specs.Found.{bound_of};
ghost use Rattle.values.specs.Answers.{found_of, alias, compare_branch};

use add::Arena;
use operators::{set_known, store};
use ptype::{BOOL_WORD, TypeKind, Types, UNKNOWN_WORD, contains_unknown, same_type};
use rules::{Answer, Member};
use scope::Binding;
use state::{Step, Used};
use tok::{Span, word_at};

// Fields.

// Looks up the first field of a name in a record, by the record's type word.
pub fn find_field(types: &Types, name: u32, word: u32) -> Option<u32>
    ensures { let T : Texts = types.now.texts.now in let W : List ℕ = types.now.words.now in
        found_of result ≡ find_field T W (name_bytes T name) (payload_of word + 1) (field_count W word) }
{
    let count = ptype::field_count(types.words, word);
    let first = tok::payload(word) + 1;
    // once, and not for each field: the compiler does not take it out of the loop
    let wanted = tok::name_bytes(types.texts, name);
    for i in 0..count {
        let at = first + 2 * i;
        if tok::is_name(types.texts, wanted, word_at(types.words, at)) {
            return Some(ptype::field_type(types.words, at));
        }
    }
    None
}

// A field's type, in the slot of the Field node: Unknown is recorded, and poisons.
#[tactic(auto, unfolding(rules::specs::Rules::field_type, rules::specs::Steps::set_known, tok::specs::Step::when, state::specs::World::stepped))]
pub fn field_type(slots: &mut [u32], used: Used, slot: u32, word: u32) -> Step<Answer>
    ensures { (t d m : List ℕ) → Steps (field_type slot word) slots.old t d m used slots.new t d m result }
{
    match TypeKind::of(word) {
        TypeKind::Unknown => {
            store(slots, slot as usize, UNKNOWN_WORD);
            Ok((Answer::Poison, used))
        }
        _ => set_known(slots, used, slot, word),
    }
}

// Node::Field, of the target's slot: 12 where the target is no record, 13 where it has no such field.
pub fn field(
    slots: &mut [u32],
    types: &Types,
    diagnostics: &mut [u32],
    messages: &mut [u8],
    used: Used,
    n: u32,
    slot: u32,
    name: u32,
    target: u32,
) -> Step<Answer>
    ensures { ((ls : List Package) (v : ℕ) → Steps (field (ctx types.now.texts.now ls v) n slot name target) slots.old types.now.words.now diagnostics.old messages.old used
        slots.new types.now.words.now diagnostics.new messages.new result) }
{
    let w = word_at(slots, target as usize);
    let counts = used.told;
    let TypeKind::Record = TypeKind::of(w) else {
        let other = err_values::no_record(diagnostics, messages, counts, types, name, w);
        return state::told(n, used, other, Answer::Poison);
    };
    let found = find_field(types, name, w);
    let Some(t) = found else {
        let none = err_values::no_field(diagnostics, messages, counts, types, name, w);
        return state::told(n, used, none, Answer::Poison);
    };
    field_type(slots, used, slot, t)
}

// Arrays.

// An array of no members: 1.
pub fn empty_array(
    diagnostics: &mut [u32],
    messages: &mut [u8],
    used: Used,
    n: u32,
    token: u32,
) -> Step<Answer>
    ensures { (s t : List ℕ) → Steps (poison n (empty_array token)) s t diagnostics.old messages.old used s t diagnostics.new messages.new result }
{
    let counts = used.told;
    let reported = err_values::empty_array(diagnostics, messages, counts, token);
    state::told(n, used, reported, Answer::Poison)
}

// An array's member against the first, of their slots: 2 where their types differ.
fn member_types(
    slots: &[u32],
    types: &Types,
    diagnostics: &mut [u32],
    messages: &mut [u8],
    used: Used,
    n: u32,
    span: Span,
    first: u32,
    member: u32,
) -> Step<Member>
    ensures { ((ls : List Package) (v : ℕ) → Steps (member_types (ctx types.now.texts.now ls v) n span first member) slots.now types.now.words.now diagnostics.old
        messages.old used slots.now types.now.words.now diagnostics.new messages.new result) }
{
    let f = word_at(slots, first as usize);
    let t = word_at(slots, member as usize);
    if contains_unknown(types.words, t) || contains_unknown(types.words, f) {
        return Ok((Member::Silent, used));
    }
    if same_type(types, t, f) {
        return Ok((Member::Alike, used));
    }
    let counts = used.told;
    let reported = err_values::members_differ(diagnostics, messages, counts, types, span, f, t);
    state::told(n, used, reported, Member::Differs)
}

// The same, of their answers: a poisoned one is silent.
#[tactic(auto, unfolding(rules::specs::Rules::member, state::specs::World::stepped))]
pub fn member(
    slots: &[u32],
    types: &Types,
    diagnostics: &mut [u32],
    messages: &mut [u8],
    used: Used,
    n: u32,
    span: Span,
    first: Answer,
    second: Answer,
) -> Step<Member>
    ensures { ((ls : List Package) (v : ℕ) → Steps (member (ctx types.now.texts.now ls v) n span first second) slots.now types.now.words.now diagnostics.old messages.old
        used slots.now types.now.words.now diagnostics.new messages.new result) }
{
    let (Answer::Known(f), Answer::Known(m)) = (first, second) else {
        return Ok((Member::Silent, used));
    };
    member_types(slots, types, diagnostics, messages, used, n, span, f, m)
}

// An array whose members were all visited: an Array of the first's type, unless a member is poisoned.
#[tactic(auto, unfolding(rules::specs::Rules::array_of, rules::specs::Steps::known, tok::specs::Step::when, state::specs::World::stepped))]
pub fn array_of(
    slots: &mut [u32],
    types: &mut [u32],
    used: Used,
    n: u32,
    slot: u32,
    first: Answer,
    poisoned: bool,
) -> Step<Answer>
    ensures { (T : Texts) (ls : List Package) (v : ℕ) (d m : List ℕ) → Steps (array_of (ctx T ls v) n slot first poisoned) slots.old types.old d m used
        slots.new types.new d m result }
{
    let Answer::Known(f) = first else {
        return Ok((Answer::Poison, used));
    };
    if poisoned {
        return Ok((Answer::Poison, used));
    }
    let element = word_at(slots, f as usize);
    let mut arena = Arena::new(types, used.types);
    let added = arena.add_array(element);
    let (word, used) = state::added(n, used, arena.answer(added))?;
    set_known(slots, used, slot, word)
}

// Matches.

// A match case's condition: 23 where it is not Bool.
#[tactic(auto, unfolding(rules::specs::Rules::condition, rules::specs::Steps::if_known, state::specs::World::stepped))]
pub fn condition(
    slots: &[u32],
    types: &Types,
    diagnostics: &mut [u32],
    messages: &mut [u8],
    used: Used,
    n: u32,
    token: u32,
    answer: Answer,
) -> Step<()>
    ensures { ((ls : List Package) (v : ℕ) → Steps (condition (ctx types.now.texts.now ls v) n token answer) slots.now types.now.words.now diagnostics.old messages.old used
        slots.now types.now.words.now diagnostics.new messages.new result) }
{
    let Answer::Known(slot) = answer else {
        return Ok(((), used));
    };
    let w = word_at(slots, slot as usize);
    if same_type(types, w, BOOL_WORD) {
        return Ok(((), used));
    }
    let counts = used.told;
    let reported = err_names::bad_condition(diagnostics, messages, counts, types, token, w);
    state::told(n, used, reported, ())
}

// A match case against the default's slot: 24 where their types differ; a poisoned one is passed over.
#[tactic(auto, unfolding(crate::specs::Answers::compare_branch, rules::specs::Steps::if_known, state::specs::World::stepped))]
pub fn compare_branch(
    slots: &[u32],
    types: &Types,
    diagnostics: &mut [u32],
    messages: &mut [u8],
    used: Used,
    n: u32,
    default: u32,
    token: u32,
    answer: Answer,
) -> Step<()>
    ensures { ((ls : List Package) (v : ℕ) → Steps (compare_branch (ctx types.now.texts.now ls v) n default token answer) slots.now types.now.words.now diagnostics.old
        messages.old used slots.now types.now.words.now diagnostics.new messages.new result) }
{
    let Answer::Known(slot) = answer else {
        return Ok(((), used));
    };
    let w = word_at(slots, slot as usize);
    let d = word_at(slots, default as usize);
    if same_type(types, w, d) {
        return Ok(((), used));
    }
    let counts = used.told;
    let reported = err_names::match_cases(diagnostics, messages, counts, types, token, d, w);
    state::told(n, used, reported, ())
}

// Typechecker::alias: a slot takes another's type.
pub fn alias(slots: &mut [u32], used: Used, slot: u32, from: u32) -> Step<Answer>
    ensures { (t d m : List ℕ) → Steps (alias slot from) slots.old t d m used slots.new t d m result }
{
    let w = word_at(slots, from as usize);
    set_known(slots, used, slot, w)
}

// Bindings and returns.

// What a let binds its name to: Poison and Void poison the binding, Void with 7.
#[tactic(auto, unfolding(rules::specs::Rules::let_binding, rules::specs::Steps::ty, tok::specs::Step::when, state::specs::World::stepped, state::specs::World::with_answer))]
pub fn let_binding(
    slots: &[u32],
    diagnostics: &mut [u32],
    messages: &mut [u8],
    used: Used,
    n: u32,
    name: u32,
    answer: Answer,
) -> Step<Binding>
    ensures { (t : List ℕ) → Steps (let_binding n name answer) slots.now t diagnostics.old messages.old used slots.now t diagnostics.new
        messages.new (with_answer bound_of result) }
{
    let Answer::Known(right) = answer else {
        return Ok((Binding::Poisoned, used));
    };
    let w = word_at(slots, right as usize);
    let TypeKind::Void = TypeKind::of(w) else {
        return Ok((Binding::Bound(w), used));
    };
    let counts = used.told;
    let reported = err_names::let_void(diagnostics, messages, counts, name);
    state::told(n, used, reported, Binding::Poisoned)
}

// A function's body against its return type, whose token is given: 9 where they differ.
#[tactic(auto, unfolding(rules::specs::Rules::check_return, rules::specs::Steps::if_known, state::specs::World::stepped))]
pub fn check_return(
    slots: &[u32],
    types: &Types,
    diagnostics: &mut [u32],
    messages: &mut [u8],
    used: Used,
    n: u32,
    name: u32,
    token: u32,
    ret: u32,
    computed: Answer,
) -> Step<()>
    ensures { let T : Texts = types.now.texts.now in let W : List ℕ = types.now.words.now in
        ((ls : List Package) (v : ℕ) (e : TypeExpr) → type_token e ≡ token → Steps (check_return (ctx T ls v) n name e ret computed) slots.now W
        diagnostics.old messages.old used slots.now W diagnostics.new messages.new result) }
{
    let Answer::Known(slot) = computed else {
        return Ok(((), used));
    };
    let w = word_at(slots, slot as usize);
    if same_type(types, w, ret) {
        return Ok(((), used));
    }
    let counts = used.told;
    let reported = err_names::bad_return(diagnostics, messages, counts, types, token, name, ret, w);
    state::told(n, used, reported, ())
}
