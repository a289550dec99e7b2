// Puts types for the slots of a type (ptype.rs: apply_slot_binding).
#![tactic(auto)]

ghost use Rattle.std.specs.Prelude.{◌≡◌, List, ℕ, ◌+◌, ◌*◌, ◌<◌, ◌≤◌, ◌^◌, length, take};
ghost use Rattle.tok.specs.Text.{Texts, name_bytes};
ghost use Rattle.ptype.specs.Add.{buffer, write};
ghost use Rattle.ptype.specs.Slots.{Binding, bound_to, bound_or};
ghost use Rattle.add.specs.Answer.{result_of, Allocates};
ghost use Rattle.add.specs.Parts.{record_from};
ghost use Rattle.slots.specs.Bindings.{bound_slots};
ghost use Rattle.apply.specs.Apply.{apply_pairs, apply_within, apply_word, only};
ghost use Rattle.apply.specs.Sizes.{sizes_of, size_within, word_before, pairs_after};
ghost use Rattle.apply.specs.Setting.{Setting};

use add::{AddError, Added, Arena, MOST_LEVELS};
use ptype::{TypeKind, Types, field_count, field_type, inner};
use slots::BoundSlots;
use tok::{Texts, payload, word_at};

// Puts types for the slots of the type w, as they are bound. Only compound types that contain a bound slot are added anew.
// Where it is refused, the rules leave open what the buffer holds ("Reading the promises", 1): the check sets all of it to zero.
pub fn apply_slot_binding(
    types: &mut [u32],
    used: usize,
    texts: &Texts,
    bindings: &BoundSlots,
    w: u32,
) -> Added
    ensures { ((n : ℕ) → apply_word texts.now n (bound_slots texts.now bindings.now) w (buffer types.old used) ≡ result_of n result types.new) }
{
    let base = used.min(types.len());
    let mut arena = Arena::new(types, used);
    let word = apply_within(&mut arena, base, texts, bindings, w, MOST_LEVELS + 1);
    arena.answer(word)
}

// The same, as deep as `depth` says. The type is read from the first `base` words, which stay as they are.
#[cycle(apply_fields_apply_within)]
fn apply_within(
    arena: &mut Arena,
    base: usize,
    texts: &Texts,
    bindings: &BoundSlots,
    w: u32,
    depth: usize,
) -> Result<u32, AddError>
    requires { (base ≤ arena.old.used) × (base ≤ length arena.old.words.now) }
    ensures { let T : Texts = texts.now in
        let bs : List Binding = bound_slots T bindings.now in
        let old : List ℕ = take base arena.old.words.now in
        Allocates (λ _ n. apply_within T n bs (only old) depth w) arena.old result arena.new }
{
    if depth == 0 {
        return Ok(w);
    }
    let below = depth - 1;
    let kind = TypeKind::of(w);
    if let TypeKind::Slot = kind {
        return Ok(slot_type(texts, bindings, w));
    }
    let old = Types {
        words: arena.first(base),
        texts: &*texts,
    };
    if !slots::has_bound_slot_within(bindings, &old, w, depth) {
        return Ok(w);
    }
    match kind {
        TypeKind::Option | TypeKind::Array => {
            let x = inner(arena.first(base), w);
            let new = apply_within(arena, base, texts, bindings, x, below)?;
            arena.add_wrap(kind, new)
        }
        TypeKind::Record => {
            let n = field_count(arena.first(base), w);
            let at = payload(w) + 1;
            let new = apply_fields(arena, base, texts, bindings, at, n, below)?;
            arena.close_record(new)
        }
        _ => Ok(w),
    }
}

// Adds the Record of the fields from index `at` on: first types are put for the slots of all fields, then the Record is opened, and then
// its pairs are set. They are not kept until then, since the words used say what each of them is.
#[cycle(apply_fields_apply_within)]
fn apply_fields(
    arena: &mut Arena,
    base: usize,
    texts: &Texts,
    bindings: &BoundSlots,
    at: usize,
    fields: usize,
    depth: usize,
) -> Result<u32, AddError>
    requires { ((base ≤ arena.old.used) × (base ≤ length arena.old.words.now)) × (at + 2 * fields < 2 ^ 40) }
    ensures { let T : Texts = texts.now in
        let bs : List Binding = bound_slots T bindings.now in
        let old : List ℕ = take base arena.old.words.now in
        Allocates (λ _ n. record_from n fields 0 (apply_pairs (apply_within T n bs (only old) depth) (only old) at fields)) arena.old result arena.new }
{
    let used = arena.used;
    for i in 0..fields {
        let x = field_type(arena.first(base), at + 2 * i);
        apply_within(arena, base, texts, bindings, x, depth)?;
    }
    let new = arena.open_record(fields)?;
    let place = payload(new) + 1;
    set_pairs(
        arena.words,
        base,
        used,
        texts,
        bindings,
        at,
        fields,
        depth,
        place,
    );
    Ok(new)
}

// Sets the pairs of fields whose types were put after `used` words, from `place` on.
fn set_pairs(
    types: &mut [u32],
    base: usize,
    used: usize,
    texts: &Texts,
    bindings: &BoundSlots,
    at: usize,
    fields: usize,
    depth: usize,
    place: usize,
)
    requires { let bs : List Binding = bound_slots texts.now bindings.now in
        let old : List ℕ = take base types.old in
        Setting texts.now bs old depth used at fields place base (length types.old) }
    ensures { let bs : List Binding = bound_slots texts.now bindings.now in
        let old : List ℕ = take base types.old in
        types.new ≡ write types.old place (pairs_after texts.now bs old depth used at fields) }
{
    let mut end = used;
    for i in 0..fields {
        let here = at + 2 * i;
        let old = Types {
            words: &types[..base],
            texts: &*texts,
        };
        let name = word_at(old.words, here);
        let x = field_type(old.words, here);
        let size = applied_size(&old, bindings, x, depth);
        end += size;
        let new = applied_word(&old, bindings, x, depth, end, size);
        add::set_pair(types, place + 2 * i, name, new);
    }
}

// The word that was put for w, when `end` words were used, of which the last `size` were added for it.
fn applied_word(
    old: &Types,
    bindings: &BoundSlots,
    w: u32,
    depth: usize,
    end: usize,
    size: usize,
) -> u32
    requires { (size ≡ size_within old.now.texts.now (bound_slots old.now.texts.now bindings.now) old.now.words.now depth w) × ((size ≤ end) × (end ≤ 8192)) }
    ensures { result ≡ word_before old.now.texts.now (bound_slots old.now.texts.now bindings.now) old.now.words.now depth end size w }
{
    if depth == 0 {
        return w;
    }
    let kind = TypeKind::of(w);
    if let TypeKind::Slot = kind {
        return slot_type(old.texts, bindings, w);
    }
    if size == 0 {
        return w;
    }
    match kind {
        TypeKind::Option | TypeKind::Array => kind.word(end - 1),
        _ => TypeKind::Record.word(end - (1 + 2 * field_count(old.words, w))),
    }
}

// How many words putting types for the slots of w added. It is asked only where that was just done: the new types have at most 32 levels
// and fit the buffer, and each field met is two words of it, so it takes no more steps than there are words, for each level at most once.
#[cycle(applied_size_applied_sizes)]
fn applied_size(old: &Types, bindings: &BoundSlots, w: u32, depth: usize) -> usize
    requires { size_within old.now.texts.now (bound_slots old.now.texts.now bindings.now) old.now.words.now depth w ≤ 8192 }
    ensures { result ≡ size_within old.now.texts.now (bound_slots old.now.texts.now bindings.now) old.now.words.now depth w }
{
    if depth == 0 {
        return 0;
    }
    match TypeKind::of(w) {
        TypeKind::Option | TypeKind::Array => {
            if !slots::has_bound_slot_within(bindings, old, w, depth) {
                return 0;
            }
            applied_size(old, bindings, inner(old.words, w), depth - 1) + 1
        }
        TypeKind::Record => {
            if !slots::has_bound_slot_within(bindings, old, w, depth) {
                return 0;
            }
            let n = field_count(old.words, w);
            applied_sizes(old, bindings, payload(w) + 1, n, depth - 1) + (1 + 2 * n)
        }
        _ => 0,
    }
}

// How many words were added for the fields from index `at` on.
#[cycle(applied_size_applied_sizes)]
fn applied_sizes(
    old: &Types,
    bindings: &BoundSlots,
    at: usize,
    fields: usize,
    depth: usize,
) -> usize
    requires { (at + 2 * fields < 2 ^ 40) × (sizes_of (size_within old.now.texts.now (bound_slots old.now.texts.now bindings.now) old.now.words.now depth) old.now.words.now at fields ≤ 8192) }
    ensures { result ≡ sizes_of (size_within old.now.texts.now (bound_slots old.now.texts.now bindings.now) old.now.words.now depth) old.now.words.now at fields }
{
    let mut sum: usize = 0;
    for i in 0..fields {
        sum += applied_size(old, bindings, field_type(old.words, at + 2 * i), depth);
    }
    sum
}

// The type that a slot is bound to, or the slot itself.
fn slot_type(texts: &Texts, bindings: &BoundSlots, slot: u32) -> u32
    ensures { result ≡ bound_or slot (bound_to (name_bytes texts.now slot) (bound_slots texts.now bindings.now)) }
{
    bindings.bound_to(texts, slot).unwrap_or(slot)
}
