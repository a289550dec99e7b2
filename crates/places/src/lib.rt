// Where the records of an image stand (document 01, "Image"), and how many levels its types have, found in one pass and kept in an array:
// node n's place at index n, type t's at index 2,048 + t, and its levels at index 2,560 + t.
#![tactic(auto)]

ghost use Rattle.std.specs.Prelude.{◌≡◌, ◌+◌, ◌-◌, ◌*◌, ◌/◌, ◌<◌, ◌^◌, get_or};
ghost use Rattle.tok.specs.Word.{payload_of};
ghost use Rattle.ast.specs.Image.{slot_count, record_kind, record_length};
ghost use Rattle.ast.specs.Kinds.{kind_of_node};
ghost use Rattle.places.specs.Image.{Image, image_of};
ghost use Rattle.places.specs.Places.{clipped, place_after, Filled, most_in, levels_inside, levels_at, fill_levels, places_in};

use ast::{ExprKind, MOST_NODES, MOST_TYPES, NodeKind};
use std::marker::Model;
use tok::{item_at, set_item};

// An image, with the places of its records.
#[derive(Drop)]
pub struct Image<'a> {
    pub words: &'a [u32],
    pub places: &'a [u16],
}

impl<'a> Model for Image<'a> {
    ghost Value = { Image };

    ghost view = { λ i. image_of i.words.now i.places.now };
}

// A node of an image, and where its record stands.
#[derive(Clone, Copy)]
pub struct NodeAt<'i, 'a> {
    pub image: &'i Image<'a>,
    pub n: u32,
    pub at: usize,
}

// The index of type 0's place.
const TYPES: usize = MOST_NODES;

// The index of type 0's levels.
const LEVELS: usize = TYPES + MOST_TYPES;

fn levels(places: &[u16], t: u32) -> u16
    ensures { result ≡ get_or places.now (2560 + t) 0 }
{
    item_at(places, LEVELS + t as usize, 0)
}

impl<'a> Image<'a> {
    // The word at an index; 0 past the end.
    #[inline]
    pub fn word_at(&self, at: usize) -> u32
        ensures { result ≡ get_or self.now.words at 0 }
    {
        tok::word_at(self.words, at)
    }

    // The word that stands k after a place; 0 past the end.
    #[inline]
    pub fn word_after(&self, at: usize, k: usize) -> u32
        ensures { result ≡ get_or self.now.words (at + k) 0 }
    {
        tok::word_after(self.words, at, k)
    }

    // V, the number of slots.
    #[inline]
    pub fn slot_count(&self) -> u32
        ensures { result ≡ slot_count self.now.words }
    {
        ast::slot_count(self.words)
    }

    // Where node n's record stands; 0 where the array has no place for it.
    pub fn node_place(&self, n: u32) -> usize
        ensures { result ≡ get_or self.now.places n 0 }
    {
        item_at(self.places, n as usize, 0) as usize
    }

    // Node n, and where its record stands; word 0 where the array has no place for it.
    #[inline]
    pub fn node<'i>(&'i self, n: u32) -> NodeAt<'i, 'a>
        ensures same { result.image.now ≡ self.now }
        ensures number { result.n ≡ n }
        ensures place { result.at ≡ get_or self.now.places n 0 }
    {
        NodeAt {
            image: self,
            n,
            at: self.node_place(n),
        }
    }

    // Where type t's record stands; 0 where the array has no place for it.
    pub fn type_place(&self, t: u32) -> usize
        ensures { result ≡ get_or self.now.places (2048 + t) 0 }
    {
        item_at(self.places, TYPES + t as usize, 0) as usize
    }

    // How many levels type t has; 0 where the array has no place for it.
    pub fn type_levels(&self, t: u32) -> usize
        ensures { result ≡ get_or self.now.places (2560 + t) 0 }
    {
        levels(self.places, t) as usize
    }
}

impl<'i, 'a> NodeAt<'i, 'a> {
    // The node's kind.
    #[inline]
    pub fn kind(&self) -> NodeKind
        ensures { result ≡ kind_of_node (record_kind self.now.image.now.words self.now.at) }
    {
        NodeKind::of(self.image.word_at(self.at))
    }

    // How many words its record has.
    #[inline]
    pub fn length(&self) -> usize
        ensures { result ≡ record_length self.now.image.now.words self.now.at }
    {
        tok::payload(self.image.word_at(self.at))
    }

    // The word that stands k after the node's place; 0 past the end.
    #[inline]
    pub fn word(&self, k: usize) -> u32
        ensures { result ≡ get_or self.now.image.now.words (self.now.at + k) 0 }
    {
        self.image.word_after(self.at, k)
    }
}

// A place as 16 bits hold it. An image of at most 8,192 words has no greater one.
fn clipped(at: usize) -> u16
    ensures { result ≡ clipped at }
{
    u16::try_from(at).unwrap_or(u16::MAX)
}

// Where the record after the one at a place stands.
#[tactic(auto, unfolding(crate::specs::Places::place_after))]
fn place_after(image: &[u32], at: u16) -> u16
    ensures { result ≡ place_after image.now at }
{
    let i = at as usize;
    clipped(i + tok::payload(tok::word_at(image, i)))
}

// Fills in the places of some records, the first of them at `first`, from an index on; the answer is the place after them.
fn fill(places: &mut [u16], image: &[u32], index: usize, count: usize, first: u16) -> u16
    requires { index + count < 2 ^ 40 }
    ensures { Filled image.now index count first places.old result places.new }
{
    let mut at = first;
    for i in index..index + count {
        set_item(places, i, at);
        at = place_after(image, at);
    }
    at
}

// How many fields a Record has, by the head of its record.
pub fn fields_in(head: u32) -> usize
    ensures { (result ≡ (payload_of head - 2) / 2) × (result < 2 ^ 28) }
{
    tok::payload(head).saturating_sub(2) / 2
}

// The most levels of some fields, which stand from word `at` on.
fn most_levels(places: &[u16], image: &[u32], at: usize, fields: usize) -> u16
    requires { at + 2 * fields < 2 ^ 40 }
    ensures { result ≡ most_in image.now places.now at fields }
{
    let mut most: u16 = 0;
    for field in 0..fields {
        most = most.max(levels(places, tok::word_at(image, at + 2 * field + 1)));
    }
    most
}

// How many levels are inside the type whose record stands at a place, by those of the types before it.
fn levels_inside(places: &[u16], image: &[u32], at: u16) -> u16
    ensures { result ≡ levels_inside image.now places.now at }
{
    let i = at as usize;
    let head = tok::word_at(image, i);
    match ExprKind::of(head) {
        ExprKind::Option | ExprKind::Array => levels(places, tok::word_at(image, i + 1)),
        ExprKind::Record => most_levels(places, image, i + 2, fields_in(head)),
        _ => 0,
    }
}

// The levels of type t.
#[tactic(auto, unfolding(crate::specs::Places::levels_at))]
fn levels_at(places: &[u16], image: &[u32], t: usize) -> u16
    requires { t < 2 ^ 40 }
    ensures { result ≡ levels_at image.now places.now t }
{
    levels_inside(places, image, item_at(places, TYPES + t, 0)).saturating_add(1)
}

// Fills in the levels of some types, each after its parts: "A part's number is smaller than its owner's."
fn fill_levels(places: &mut [u16], image: &[u32], types: usize)
    requires { types < 2 ^ 40 }
    ensures { places.new ≡ fill_levels image.now 0 types places.old }
{
    for t in 0..types {
        let most = levels_at(&places[..], image, t);
        set_item(places, LEVELS + t, most);
    }
}

// The places of an image's records, of at most 2,048 nodes and 512 types, and the levels of its types, filled into an array of zeros that
// is lent.
pub fn record_places(places: &mut [u16], image: &[u32])
    ensures { places.new ≡ places_in image.now places.old }
{
    let nodes = (ast::node_count(image) as usize).min(MOST_NODES);
    let types = (ast::type_count(image) as usize).min(MOST_TYPES);
    let first = clipped(4 + ast::root_count(image) as usize);
    let first_type = fill(places, image, 0, nodes, first);
    fill(places, image, TYPES, types, first_type);
    fill_levels(places, image, types);
}
