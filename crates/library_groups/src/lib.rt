// "A group of several in one package has flag 0": up to which function the rule is certain to hold in a package, found by its functions in the
// order of their names. Functions from there on are asked one by one (crate library_read).
#![tactic(auto)]

ghost use Rattle.std.specs.Prelude.{◌≡◌, ℕ, length};
ghost use Rattle.tok.specs.Text.{Texts};
ghost use Rattle.library_groups.specs.Kept.{GroupsKept, FunctionsListed, ListedEnd, NoneSlotted, Lowest, FaultAt, FaultsFrom, FirstFault};
ghost use Rattle.name_order.specs.Order.{Grouped};

use library::Function;
use name_order::{Groups, NamedWords};
use reader::MOST_WORDS;
use tok::Texts;

// The places of a package's functions, as far as the words and the list go, and how many there are.
fn function_places(words: &[u32], from: usize, count: usize, order: &mut [u16]) -> usize
    ensures { FunctionsListed words.now from order.new result }
{
    let end = count.min(order.len());
    let last = words.len().min(MOST_WORDS);
    let mut at = from;
    for k in 0..end {
        if at >= last {
            return k;
        }
        name_order::enter(order, k, at);
        at = Function { words, at }.end();
    }
    end
}

// The place after the last of them.
fn listed_end(words: &[u32], from: usize, order: &[u16]) -> usize
    ensures { FunctionsListed words.now from order.now (length order.now) → ListedEnd words.now from (length order.now) result }
{
    let Some(last) = order.last() else {
        return from;
    };
    Function {
        words,
        at: name_order::place_of(*last),
    }
    .end()
}

// Whether none of them has slots.
fn none_slotted(words: &[u32], order: &[u16]) -> bool
    ensures { NoneSlotted words.now order.now (length order.now) result }
{
    order.iter().all(|entry| {
        let at = name_order::place_of(*entry);
        !Function { words, at }.has_slots()
    })
}

// The lowest place of a group.
fn lowest(group: &[u16]) -> usize
    ensures { Lowest group.now 0 (length group.now) result }
{
    group
        .iter()
        .map(|entry| name_order::place_of(*entry))
        .min()
        .unwrap_or(0)
}

// The lower of `most` and a place of a group, if the rule fails there: its function is not the first, and has slots or the first has.
fn fault_at(words: &[u32], low: usize, p: usize, most: usize) -> usize
    ensures { FaultAt words.now low p most result }
{
    let first = Function { words, at: low };
    let other = Function { words, at: p };
    if p != low && (first.has_slots() || other.has_slots()) {
        most.min(p)
    } else {
        most
    }
}

// The lower of `most` and the lowest such place of a group.
fn fault_in(words: &[u32], group: &[u16], low: usize, most: usize) -> usize
    ensures { FaultsFrom words.now group.now 0 (length group.now) low most result }
{
    let mut best = most;
    for entry in group {
        best = fault_at(words, low, name_order::place_of(*entry), best);
    }
    best
}

// The same of all groups.
fn first_fault(words: &[u32], order: &[u16], most: usize) -> usize
    ensures { let n : ℕ = length order.now in
        (t : Texts) → Grouped t words.now order.now n → FirstFault t words.now order.now n most result }
{
    let mut best = most;
    for group in Groups::of(order) {
        best = fault_in(words, group, lowest(group), best);
    }
    best
}

// The functions of a package that stand before this place keep the rule. A function has four words at least.
pub fn kept_up_to(texts: &Texts, words: &[u32], from: usize, count: usize) -> usize
    ensures { GroupsKept texts.now words.now from result }
{
    let mut order = [0u16; MOST_WORDS / 4];
    let n = function_places(words, from, count, &mut order);
    let listed = &mut order[..n];
    let end = listed_end(words, from, listed);
    if none_slotted(words, listed) {
        return end;
    }
    if (NamedWords { texts, words }).group_names(listed) {
        return first_fault(words, listed, end);
    }
    from
}
