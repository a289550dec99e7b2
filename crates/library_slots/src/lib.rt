// The slots that stand in library types (document 01, "Words": "Slots stand only under flag 1; a slot of the return type stands in some
// argument"), found by counts and marks on the pool: no type is unfolded, since a pool of records that each hold the last twice doubles
// with every level.
#![tactic(auto)]

ghost use Rattle.std.specs.Prelude.{◌≡◌, Bool, true, false, cond, List, ℕ, ◌+◌, ◌*◌, ◌≤◌, ◌<◌, ◌^◌, min, length, get_or, eqb, IfSome};
ghost use Rattle.tok.specs.Word.{kind_of};
ghost use Rattle.tok.specs.Text.{Texts, name_bytes};
ghost use Rattle.library.specs.SlotSums.{slot_by, zeros, sums_to};
ghost use Rattle.library.specs.SlotMarks.{mark_fields, mark_inside, mark_all, spread, any_marked, is_slot, any_slot_of, types_in};
ghost use Rattle.library.specs.ReturnSlots.{among_marked, missing};
ghost use Rattle.name_order.specs.Order.{Grouped};
ghost use Rattle.library_slots.specs.Named.{of_pairs, in_pool, argued, wanted, Told, NamesStand, ReturnAsked, SlotsListed, SlotsNamed};

use name_order::NamedWords;
use ptype::TypeKind;
use reader::MOST_WORDS;
use tok::{Texts, item_at, set_item};

// Whether a word's kind is that of a slot.
fn slot_kind(w: u32) -> bool
    ensures { result ≡ eqb (kind_of w) 10 }
{
    matches!(TypeKind::of(w), TypeKind::Slot)
}

// Counts: how many pool words before an index hold a slot; 0 past the end.

// Whether a slot stands in a type: in one of the words that it refers to.
#[tactic(auto, unfolding(library::specs::SlotSums::slot_by))]
pub fn has_slot(pool: &[u32], sums: &[u16], w: u32) -> bool
    ensures { result ≡ slot_by (λ j. get_or sums.now j 0) pool.now w }
{
    let q = tok::payload(w);
    match TypeKind::of(w) {
        TypeKind::Slot => true,
        TypeKind::Option | TypeKind::Array => item_at(sums, q, 0) < item_at(sums, q + 1, 0),
        TypeKind::Record => {
            let n = ptype::field_count(pool, w);
            item_at(sums, q + 1, 0) < item_at(sums, q + 1 + 2 * n, 0)
        }
        _ => false,
    }
}

// The counts of a pool of at most 8,192 words, one for each index and one for the end: one pass, since a word refers to smaller indices.
pub fn slot_sums(pool: &[u32], sums: &mut [u16; MOST_WORDS + 1])
    ensures { sums.new ≡ sums_to pool.now (min (length pool.now) 8192) }
{
    *sums = [0; MOST_WORDS + 1];
    for i in 0..pool.len().min(MOST_WORDS) {
        let more = u16::from(has_slot(pool, sums, pool[i]));
        sums[i + 1] = sums[i] + more;
    }
}

// Marks.

// The type words of a list of n fields, as far as there are marks.
fn mark_fields(marks: &mut [bool], at: usize, n: usize)
    requires { at + 2 * n < 2 ^ 40 }
    ensures { marks.new ≡ mark_fields marks.old at n }
{
    let end = (at + 2 * n).min(marks.len());
    for i in (at..end).step_by(2) {
        set_item(marks, i, true);
    }
}

// The words that a type word refers to.
#[tactic(auto, unfolding(library::specs::SlotMarks::mark_inside))]
fn mark_inside(pool: &[u32], w: u32, marks: &mut [bool])
    ensures { marks.new ≡ mark_inside pool.now w marks.old }
{
    let q = tok::payload(w);
    match TypeKind::of(w) {
        TypeKind::Option | TypeKind::Array => set_item(marks, q, true),
        TypeKind::Record => mark_fields(marks, q + 2, ptype::field_count(pool, w)),
        _ => {}
    }
}

// The words that a marked pool word refers to.
fn spread_from(pool: &[u32], i: usize, marks: &mut [bool])
    ensures { marks.new ≡ cond (get_or marks.old i false) (mark_inside pool.now (get_or pool.now i 0) marks.old) marks.old }
{
    if item_at(marks, i, false) {
        mark_inside(pool, tok::word_at(pool, i), marks);
    }
}

// All that marked words refer to, from the highest index down: a word refers to smaller indices.
fn spread(pool: &[u32], marks: &mut [bool])
    ensures { marks.new ≡ spread pool.now (length pool.now) marks.old }
{
    for i in (0..pool.len()).rev() {
        spread_from(pool, i, marks);
    }
}

// What the types of some pairs refer to.
fn mark_types(pool: &[u32], pairs: &[u32], marks: &mut [bool])
    ensures { marks.new ≡ mark_all pool.now (types_in pairs.now) marks.old }
{
    for pair in pairs.chunks_exact(2) {
        mark_inside(pool, pair[1], marks);
    }
}

// Slots by name.

// Whether a word is the slot that another names.
#[tactic(auto, unfolding(library::specs::SlotMarks::is_slot))]
fn is_slot(texts: &Texts, named: u32, w: u32) -> bool
    ensures { result ≡ is_slot texts.now (name_bytes texts.now named) w }
{
    slot_kind(w) && tok::same_name(texts, named, w)
}

// What the arguments of a function reach: the types of their pairs, and marked words of the pool.
#[derive(Clone, Copy)]
struct Arguments<'a> {
    texts: &'a Texts<'a>,
    pool: &'a [u32],
    pairs: &'a [u32],
    marks: &'a [bool],
}

impl<'a> Arguments<'a> {
    // Whether one of the types of the pairs is the slot that a word names.
    fn among_types(&self, named: u32) -> bool
        ensures { let t : Texts = self.now.texts.now in result ≡ any_slot_of t (name_bytes t named) (types_in self.now.pairs.now) }
    {
        for pair in self.pairs.chunks_exact(2) {
            if is_slot(self.texts, named, pair[1]) {
                return true;
            }
        }
        false
    }

    // Whether a marked pool word is.
    fn among_marks(&self, named: u32) -> bool
        ensures { let t : Texts = self.now.texts.now in
            result ≡ any_marked self.now.marks.now (λ i. is_slot t (name_bytes t named) (get_or self.now.pool.now i 0)) (length self.now.pool.now) }
    {
        (0..self.pool.len()).any(|i| {
            item_at(self.marks, i, false) && is_slot(self.texts, named, tok::word_at(self.pool, i))
        })
    }

    // Whether a slot's name is that of a slot of theirs.
    #[tactic(auto, unfolding(library::specs::ReturnSlots::among_marked))]
    fn among(&self, named: u32) -> bool
        ensures { let t : Texts = self.now.texts.now in
            result ≡ among_marked t self.now.pool.now (types_in self.now.pairs.now) self.now.marks.now (name_bytes t named) }
    {
        self.among_types(named) || self.among_marks(named)
    }

    // Whether a word is a slot that none of them has.
    #[tactic(auto, unfolding(library::specs::ReturnSlots::missing))]
    fn missing(&self, w: u32) -> bool
        ensures { result ≡ missing self.now.texts.now self.now.pool.now (types_in self.now.pairs.now) self.now.marks.now w }
    {
        slot_kind(w) && !self.among(w)
    }

    // Whether a word of the pool that is marked elsewhere is one. A word that they reach too is none.
    fn any_missing(&self, marks: &[bool]) -> bool
        ensures { let test : ℕ → Bool = λ i. missing self.now.texts.now self.now.pool.now (types_in self.now.pairs.now) self.now.marks.now (get_or self.now.pool.now i 0) in
            result ≡ any_marked marks.now test (length self.now.pool.now) }
    {
        (0..self.pool.len()).any(|i| {
            item_at(marks, i, false)
                && !item_at(self.marks, i, false)
                && self.missing(tok::word_at(self.pool, i))
        })
    }
}

// Names in order: slots are compared once for a library, and not for each function.

// What an argument or a return type reaches: marked words of the pool of `size` words, which stand from place 2 on, and its own words: the
// arguments' pairs stand from place `first` up to `end`, the return type at `end`.
#[derive(Clone, Copy)]
struct Reach<'a> {
    size: usize,
    marks: &'a [bool],
    first: usize,
    end: usize,
}

impl<'a> Reach<'a> {
    // Whether the word at a place is the type of a pair.
    #[tactic(auto, unfolding(crate::specs::Named::of_pairs))]
    fn of_pairs(&self, p: usize) -> bool
        ensures { result ≡ of_pairs self.now.first self.now.end p }
    {
        self.first < p && p < self.end && (p - self.first) % 2 == 1
    }

    // Whether it is a marked word of the pool.
    #[tactic(auto, unfolding(crate::specs::Named::in_pool))]
    fn in_pool(&self, p: usize) -> bool
        ensures { result ≡ in_pool self.now.size self.now.marks.now p }
    {
        p >= 2 && p - 2 < self.size && item_at(self.marks, p - 2, false)
    }

    // Whether an argument reaches it.
    #[tactic(auto, unfolding(crate::specs::Named::argued))]
    fn argued(&self, p: usize) -> bool
        ensures { result ≡ argued self.now.size self.now.marks.now self.now.first self.now.end p }
    {
        self.of_pairs(p) || self.in_pool(p)
    }

    // Whether the return type does.
    #[tactic(auto, unfolding(crate::specs::Named::wanted))]
    fn wanted(&self, p: usize) -> bool
        ensures { result ≡ wanted self.now.size self.now.marks.now self.now.end p }
    {
        p == self.end || self.in_pool(p)
    }

    // Whether an argument reaches one of a group: the ranks from one up to another.
    fn argues_any(&self, order: &[u16], at: usize, end: usize) -> bool
        ensures { Told (argued self.now.size self.now.marks.now self.now.first self.now.end) order.now at end result }
    {
        (at..end).any(|i| self.argued(name_order::place_at(order, i)))
    }

    // Whether the return type does.
    fn wants_any(&self, order: &[u16], at: usize, end: usize) -> bool
        ensures { Told (wanted self.now.size self.now.marks.now self.now.end) order.now at end result }
    {
        (at..end).any(|i| self.wanted(name_order::place_at(order, i)))
    }
}

// Whether each name that the return type reaches is one that an argument reaches: group by group.
fn names_stand(order: &[u16], n: usize, args: &Reach, ret: &Reach) -> bool
    ensures { (t : Texts) (words : List ℕ) → Grouped t words order.now n
        → NamesStand t words order.now n (argued args.now.size args.now.marks.now args.now.first args.now.end) (wanted ret.now.size ret.now.marks.now ret.now.end) result }
{
    let mut at = 0;
    while at < n {
        let next = name_order::group_end(order, at, n);
        if ret.wants_any(order, at, next) && !args.argues_any(order, at, next) {
            return false;
        }
        at = next;
    }
    true
}

// Whether each slot of the return type stands in an argument, where the arguments' pairs stand from place `first` on and the return type at `end`:
// by the library's n slots in order (those past the list are at place 0), or by name where there are none.
pub fn return_stands(
    texts: &Texts,
    pool: &[u32],
    pairs: &[u32],
    ret: u32,
    order: &[u16],
    n: usize,
    first: usize,
    end: usize,
) -> bool
    ensures { let P : List ℕ = pool.now in
        ReturnAsked texts.now P (types_in pairs.now) ret order.now n first end result }
{
    let mut args = [false; MOST_WORDS];
    mark_types(pool, pairs, &mut args);
    spread(pool, &mut args);
    let mut marks = [false; MOST_WORDS];
    mark_inside(pool, ret, &mut marks);
    spread(pool, &mut marks);
    let arguments = Arguments {
        texts,
        pool,
        pairs,
        marks: &args,
    };
    if n > 0 {
        let args = Reach {
            size: pool.len(),
            marks: &args,
            first,
            end,
        };
        let ret = Reach {
            marks: &marks,
            ..args
        };
        names_stand(order, n, &args, &ret)
    } else if slot_kind(ret) {
        arguments.among(ret)
    } else {
        !arguments.any_missing(&marks)
    }
}

// The places of the slots in a library, from the pool on, and how many there are.
fn slot_places(words: &[u32], order: &mut [u16]) -> usize
    ensures { 8192 ≤ length order.old → SlotsListed words.now order.new result }
{
    let mut n = 0;
    for i in 2..words.len().min(MOST_WORDS + 1) {
        if slot_kind(words[i]) {
            name_order::enter(order, n, i);
            n += 1;
        }
    }
    n
}

// These in the order of their names, and how many there are; none where no slot stands in the pool, or no order was found.
pub fn named_slots(
    texts: &Texts,
    words: &[u32],
    pool: &[u32],
    sums: &[u16],
    order: &mut [u16],
) -> Option<usize>
    ensures { (8192 ≤ length order.old → IfSome result (λ n. SlotsNamed texts.now words.now order.new n)) }
{
    if item_at(sums, pool.len(), 0) == 0 {
        return None;
    }
    let n = slot_places(words, order).min(order.len());
    let named = NamedWords { texts, words };
    if named.group_names(&mut order[..n]) {
        Some(n)
    } else {
        None
    }
}
