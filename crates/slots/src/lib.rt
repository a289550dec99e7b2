// Binds the slots of a parameter's type to an argument's type (ptype.rs: bind_slots, has_bound_slot).
#![tactic(auto)]

ghost use Rattle.std.specs.Prelude.{◌≡◌, List, ◌∷◌, ℕ, ◌+◌, ◌*◌, ◌<◌, ◌^◌};
ghost use Rattle.tok.specs.Text.{Texts, name_bytes};
ghost use Rattle.ptype.specs.Words.{fields_from};
ghost use Rattle.ptype.specs.Types.{type_at, type_within};
ghost use Rattle.ptype.specs.Slots.{binding, bound_to, is_some, all_bound, bind_one, bind_slots, bind_fields, has_bound_slot};
ghost use Rattle.slots.specs.Bindings.{bindings_of, bound_slots, found_of, is_bound_slot, Binds};

use ptype::{LEVELS, Sought, TypeKind, Types, field_count, field_type, inner, same_type};
use tok::{Texts, kind, payload, word_at};

// The bindings of slots: pairs of words, a slot's and its type's, in a lent part of scratch, and how many of them there are. The newest is the last.
#[derive(Drop)]
pub struct Bindings<'a> {
    pub pairs: &'a mut [u32],
    pub count: usize,
}

// The bindings of slots as they are read, of words that may be lent to others too.
#[derive(Clone, Copy)]
pub struct BoundSlots<'a> {
    pub pairs: &'a [u32],
    pub count: usize,
}

impl<'a> BoundSlots<'a> {
    // What the slot's name is bound to: the newest pair of that name.
    pub fn bound_to(&self, texts: &Texts, slot: u32) -> Option<u32>
        ensures { found_of result ≡ bound_to (name_bytes texts.now slot) (bound_slots texts.now self.now) }
    {
        // once, and not for each pair: the compiler does not take it out of the loop
        let wanted = tok::name_bytes(texts, slot);
        for k in (0..self.count.min(self.pairs.len() / 2)).rev() {
            let bound = word_at(self.pairs, 2 * k);
            if bound == slot || tok::is_name(texts, wanted, bound) {
                return Some(word_at(self.pairs, 2 * k + 1));
            }
        }
        None
    }

    // Whether a slot is bound.
    fn is_bound(&self, texts: &Texts, slot: u32) -> bool
        ensures { result ≡ is_some (bound_to (name_bytes texts.now slot) (bound_slots texts.now self.now)) }
    {
        self.bound_to(texts, slot).is_some()
    }
}

// Why a slot is not bound: it is bound to another type (21), or the type is Void (22); or the lent part is too short for the bindings. What was
// bound before an error stays.
#[derive(Clone, Copy, Debug, PartialEq, Eq)]
pub enum BindError {
    Conflict { slot: u32, existing: u32, new: u32 },
    Void { slot: u32 },
    NoRoom,
}

// What binding answers.
pub type Bind = Result<(), BindError>;

impl<'a> Bindings<'a> {
    // No bindings yet, in a lent part.
    pub fn new(pairs: &'a mut [u32]) -> Bindings<'a>
        ensures same_pairs { result.pairs.ghost_name ≡ pairs.entry.ghost_name }
        ensures none_yet { (result.pairs.now ≡ pairs.old) × (result.count ≡ 0) }
    {
        Bindings { pairs, count: 0 }
    }

    // The bindings as they are read.
    pub fn bound(&self) -> BoundSlots<'_>
        ensures { (result.pairs.now ≡ self.now.pairs.now) × (result.count ≡ self.now.count) }
    {
        BoundSlots {
            pairs: self.pairs,
            count: self.count,
        }
    }

    // What the slot's name is bound to: the newest pair of that name.
    pub fn bound_to(&self, texts: &Texts, slot: u32) -> Option<u32>
        ensures { found_of result ≡ bound_to (name_bytes texts.now slot) (bindings_of texts.now self.now) }
    {
        self.bound().bound_to(texts, slot)
    }

    // One pair more, where there is room.
    fn push(&mut self, slot: u32, ty: u32) -> Bind
        ensures { (t : Texts) → Binds t (λ bs. all_bound (binding (name_bytes t slot) ty ∷ bs)) self.old result self.new }
    {
        if self.count < self.pairs.len() / 2 {
            self.pairs[2 * self.count] = slot;
            self.pairs[2 * self.count + 1] = ty;
            self.count += 1;
            Ok(())
        } else {
            Err(BindError::NoRoom)
        }
    }
}

// A slot meets a type: it is bound to it, or the type is held to what the slot is bound to.
fn bind_one(bindings: &mut Bindings, types: &Types, slot: u32, ty: u32) -> Bind
    ensures { let T : Texts = types.now.texts.now in let W : List ℕ = types.now.words.now in
        Binds T (bind_one T W (name_bytes T slot) ty) bindings.old result bindings.new }
{
    if let TypeKind::Void = TypeKind::of(ty) {
        return Err(BindError::Void { slot });
    }
    let Some(existing) = bindings.bound_to(types.texts, slot) else {
        return bindings.push(slot, ty);
    };
    if same_type(types, existing, ty) {
        Ok(())
    } else {
        Err(BindError::Conflict {
            slot,
            existing,
            new: ty,
        })
    }
}

// Binds the slots of the type `expected` to what stands in their places in the type `provided`. What was bound before an error stays.
pub fn bind_slots(bindings: &mut Bindings, types: &Types, expected: u32, provided: u32) -> Bind
    ensures { let T : Texts = types.now.texts.now in let W : List ℕ = types.now.words.now in
        Binds T (bind_slots T W (type_at types.now expected) provided) bindings.old result bindings.new }
{
    bind_within(bindings, types, expected, provided, LEVELS)
}

// The same, as deep as `depth` says.
#[cycle(bind_fields_bind_within)]
fn bind_within(
    bindings: &mut Bindings,
    types: &Types,
    expected: u32,
    provided: u32,
    depth: usize,
) -> Bind
    ensures { let T : Texts = types.now.texts.now in let W : List ℕ = types.now.words.now in
        Binds T (bind_slots T W (type_within types.now depth expected) provided) bindings.old result bindings.new }
{
    if depth == 0 {
        return Ok(());
    }
    let wanted = TypeKind::of(expected);
    if let TypeKind::Slot = wanted {
        return bind_one(bindings, types, expected, provided);
    }
    if kind(expected) != kind(provided) {
        return Ok(());
    }
    match wanted {
        TypeKind::Option | TypeKind::Array => bind_within(
            bindings,
            types,
            inner(types.words, expected),
            inner(types.words, provided),
            depth - 1,
        ),
        TypeKind::Record => bind_fields(
            bindings,
            types,
            payload(expected) + 1,
            field_count(types.words, expected),
            payload(provided) + 1,
            field_count(types.words, provided),
            depth - 1,
        ),
        _ => Ok(()),
    }
}

// Binds m fields from index i on to n fields from index j on, in step, as far as the shorter goes.
#[cycle(bind_fields_bind_within)]
fn bind_fields(
    bindings: &mut Bindings,
    types: &Types,
    i: usize,
    m: usize,
    j: usize,
    n: usize,
    depth: usize,
) -> Bind
    requires { (i + 2 * m < 2 ^ 40) × (j + 2 * n < 2 ^ 40) }
    ensures { let T : Texts = types.now.texts.now in let W : List ℕ = types.now.words.now in
        Binds T (bind_fields T W (fields_from (type_within types.now depth) T W i m) j n) bindings.old result bindings.new }
{
    for k in 0..m.min(n) {
        bind_within(
            bindings,
            types,
            field_type(types.words, i + 2 * k),
            field_type(types.words, j + 2 * k),
            depth,
        )?;
    }
    Ok(())
}

// What is sought in a type: a slot that is bound.
#[derive(Drop)]
struct BoundSlot<'a, 'b, 'c> {
    bindings: &'a BoundSlots<'b>,
    texts: &'a Texts<'c>,
}

impl<'a, 'b, 'c> Sought for BoundSlot<'a, 'b, 'c> {
    ghost Is = { λ s. is_bound_slot (bound_slots s.texts.now s.bindings.now) s.texts.now };

    fn is(&self, w: u32) -> bool {
        match TypeKind::of(w) {
            TypeKind::Slot => self.bindings.is_bound(self.texts, w),
            _ => false,
        }
    }
}

// Whether a slot that is bound stands in a type, as deep as `depth` says.
pub fn has_bound_slot_within(bindings: &BoundSlots, types: &Types, w: u32, depth: usize) -> bool
    ensures { result ≡ has_bound_slot (bound_slots types.now.texts.now bindings.now) (type_within types.now depth w) }
{
    let bound = BoundSlot {
        bindings,
        texts: types.texts,
    };
    ptype::contains(types.words, &bound, w, depth)
}
