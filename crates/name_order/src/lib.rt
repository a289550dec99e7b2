// Places of words put in the order of the names that the words stand for, so that equal names stand side by side ("Compared byte by byte").
// A place p is kept as 2 p, and as 2 p + 1 where a new name begins. That the order is right is not proved of the sort but looked up after it:
// what is proved is that no place is lost, and that where `group_names` answers true the names are grouped.
#![tactic(auto)]

ghost use Rattle.std.specs.Prelude.{◌≡◌, true, false, ℕ, ◌+◌, ◌*◌, ◌<◌, ◌≤◌, ◌-◌, ◌^◌, length, get_or, set};
ghost use Rattle.std.specs.Iterator.{at_most};
ghost use Rattle.tok.specs.Text.{name_bytes};
ghost use Rattle.name_order.specs.Bytes.{bytes_before};
ghost use Rattle.name_order.specs.Order.{place_in, new_in, Rearranged, Split, Grouping, GroupEnd};
ghost use Rattle.name_order.specs.Groups.{GroupsFrom, groups_from, GivesGroup};

use std::marker::Model;
use tok::{Texts, item_at, set_item};

// Entries of places.

// The place that an entry keeps.
pub fn place_of(entry: u16) -> usize
    ensures { result ≡ place_in entry }
{
    (entry / 2) as usize
}

// The place of rank i.
pub fn place_at(order: &[u16], i: usize) -> usize
    ensures { result ≡ place_in (get_or order.now i 0) }
{
    place_of(item_at(order, i, 0))
}

// Two entries change places.
fn swap(order: &mut [u16], i: usize, j: usize)
    ensures { Rearranged order.old order.new (length order.old) }
{
    if i < order.len() && j < order.len() {
        order.swap(i, j);
    }
}

// An entry told whether a new name begins with it.
fn told(entry: u16, new: bool) -> u16
    ensures { (place_in result ≡ place_in entry) × (new_in result ≡ new) }
{
    let place = entry / 2;
    if new { 2 * place + 1 } else { 2 * place }
}

// The entry of a place at a rank.
pub fn enter(order: &mut [u16], rank: usize, place: usize)
    requires { place < 2 ^ 15 }
    ensures { order.new ≡ set order.old rank (2 * place) }
{
    set_item(order, rank, (2 * place) as u16);
}

// The words that entries stand for by their places, and the texts that hold their names.
#[derive(Clone, Copy)]
pub struct NamedWords<'a> {
    pub texts: &'a Texts<'a>,
    pub words: &'a [u32],
}

impl<'a> NamedWords<'a> {
    // Whether the name of a word comes before that of another: by the first byte that differs, else the shorter one.
    fn name_before(&self, a: u32, b: u32) -> bool
        ensures { result ≡ bytes_before (name_bytes self.now.texts.now a) (name_bytes self.now.texts.now b) }
    {
        a != b
            && tok::name_bytes(self.texts, a)
                .cmp(tok::name_bytes(self.texts, b))
                .is_lt()
    }

    // The word of rank i.
    fn word_of(&self, order: &[u16], i: usize) -> u32
        ensures { result ≡ get_or self.now.words.now (place_in (get_or order.now i 0)) 0 }
    {
        tok::word_at(self.words, place_at(order, i))
    }

    // The sort: a heap of the entries, the last name on top.

    // The one of two children of an entry whose name comes last.
    fn later_child(&self, order: &[u16], at: usize) -> usize
        requires { 2 * at + 1 < length order.now }
        ensures { (at < result) × (result < length order.now) }
    {
        let child = 2 * at + 1;
        if child + 1 >= order.len() {
            return child;
        }
        let a = self.word_of(order, child);
        let b = self.word_of(order, child + 1);
        if self.name_before(a, b) {
            return child + 1;
        }
        child
    }

    // An entry goes down until no child comes after it.
    fn sift(&self, order: &mut [u16], root: usize)
        ensures { Rearranged order.old order.new (length order.old) }
    {
        let mut at = root;
        while at < order.len() / 2 {
            let child = self.later_child(order, at);
            let a = self.word_of(order, at);
            let b = self.word_of(order, child);
            if !self.name_before(a, b) {
                return;
            }
            swap(order, at, child);
            at = child;
        }
    }

    fn make_heap(&self, order: &mut [u16])
        ensures { Rearranged order.old order.new (length order.old) }
    {
        for i in (0..order.len() / 2).rev() {
            self.sift(order, i);
        }
    }

    // The last name of the heap goes behind it, again and again.
    fn take_heap(&self, order: &mut [u16])
        ensures { Rearranged order.old order.new (length order.old) }
    {
        for left in (1..order.len()).rev() {
            swap(order, 0, left);
            self.sift(&mut order[..left], 0);
        }
    }

    // Each entry is told whether its name is that of the one before it; false where the names are not in order.
    fn split(&self, order: &mut [u16]) -> bool
        ensures { Split self.now.texts.now self.now.words.now order.old order.new (length order.old) result }
    {
        for i in 1..order.len() {
            let a = self.word_of(order, i - 1);
            let b = self.word_of(order, i);
            let new = self.name_before(a, b);
            if !new && !tok::same_name(self.texts, a, b) {
                return false;
            }
            let entry = told(item_at(order, i, 0), new);
            set_item(order, i, entry);
        }
        true
    }

    // The entries sorted by name and grouped; false where that did not succeed.
    pub fn group_names(&self, order: &mut [u16]) -> bool
        ensures { Grouping self.now.texts.now self.now.words.now order.old order.new (length order.old) result }
    {
        self.make_heap(order);
        self.take_heap(order);
        self.split(order)
    }
}

// Groups.

// How many entries stand before the first with which a new name begins; all, where none does.
fn before_new(entries: &[u16]) -> usize
    ensures within { result ≤ length entries.now }
    ensures inner { (i : ℕ) → i < result → new_in (get_or entries.now i 0) ≡ false }
    ensures next { result < length entries.now → new_in (get_or entries.now result 0) ≡ true }
{
    entries
        .iter()
        .position(|entry| *entry % 2 == 1)
        .unwrap_or(entries.len())
}

// Where the group ends that begins at a rank: at the next new name, or with the last of n entries. Entries past the list are 0: none is new.
pub fn group_end(order: &[u16], at: usize, n: usize) -> usize
    requires { at < n }
    ensures { GroupEnd order.now at n result }
{
    let end = n.min(order.len());
    let from = (at + 1).min(end);
    let next = from + before_new(&order[from..end]);
    if next < end { next } else { n }
}

// The groups of entries from a rank on, in order.
#[derive(Drop)]
pub struct Groups<'a> {
    order: &'a [u16],
    at: usize,
}

impl<'a> Model for Groups<'a> {
    ghost Value = { GroupsFrom };

    ghost view = { λ g. groups_from g.order.now g.at };
}

impl<'a> Groups<'a> {
    // Those of all entries.
    pub fn of(order: &'a [u16]) -> Groups<'a>
        ensures { result ≡ groups_from order.now 0 }
    {
        Groups { order, at: 0 }
    }
}

impl<'a> Iterator for Groups<'a> {
    type Item = &'a [u16];

    ghost next_gives = { GivesGroup };

    ghost remaining = { λ g. at_most (length g.order - g.at) };

    fn next(&mut self) -> Option<&'a [u16]> {
        if self.at >= self.order.len() {
            return None;
        }
        let start = self.at;
        self.at = group_end(self.order, start, self.order.len());
        Some(&self.order[start..self.at])
    }
}
