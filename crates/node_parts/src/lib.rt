// Where the parts of a node stand in its record (document 01, "Words": "Rest of each").
#![tactic(auto)]

ghost use Rattle.std.specs.Prelude.{◌≡◌, ◌+◌, ◌*◌, ◌^◌, ◌≤◌, ◌<◌};
ghost use Rattle.ast.specs.Image.{word_at, record_length};
ghost use Rattle.image_laws.specs.OutlineAt.{arguments_at};
ghost use Rattle.node_parts.specs.Runs.{run, place_of, RunHere, PartsHere};

use ast::NodeKind;
use tok::{payload, word_after, word_at};

// Words of an image that hold parts: `count` of them, each `step` after the one before.
#[derive(Clone, Copy)]
pub struct Run {
    pub from: usize,
    pub count: usize,
    pub step: usize,
}

// The cases of a Match: `count` of them from word `from` on, then the default, whose last word stands before `end`.
#[derive(Clone, Copy)]
pub struct Cases {
    pub from: usize,
    pub count: usize,
    pub end: usize,
}

// Where the parts of a node stand.
#[derive(Clone, Copy)]
pub enum Parts {
    Run(Run),
    Cases(Cases),
}

impl Run {
    // Its number k, and 0 past the end of the image.
    #[tactic(auto, using(crate::proofs::Ways::near_enough))]
    pub fn number(self, words: &[u32], k: usize) -> u32
        requires { (self.step ≤ 2) × (self.from + 2 * k < 2 ^ 63) }
        ensures { result ≡ word_at words.now (place_of self k) }
    {
        word_at(words, self.from + self.step * k)
    }
}

// The place after the record at a place. Past the end of an image a record has no words.
pub fn after(words: &[u32], at: usize) -> usize
    ensures { result ≡ at + record_length words.now at }
{
    if at >= words.len() {
        return at;
    }
    at + payload(word_at(words, at))
}

// The slot of the node at a place, and 0 past the end.
pub fn slot(words: &[u32], at: usize) -> u32
    ensures { result ≡ word_at words.now (at + 1) }
{
    word_after(words, at, 1)
}

// How many arguments the node at a place has, if it is an Fn, else 0.
pub fn arguments(words: &[u32], at: usize) -> u32
    ensures { result ≡ arguments_at words.now at }
{
    match NodeKind::of(word_at(words, at)) {
        NodeKind::Fn => word_after(words, at, 4),
        _ => 0,
    }
}

fn stretch(from: usize, count: usize, step: usize) -> Run
    ensures { result ≡ run from count step }
{
    Run { from, count, step }
}

// The parts of the node at a place; those of a Match, whose cases are runs themselves, are left out.
pub fn run_at(words: &[u32], at: usize) -> Run
    ensures { RunHere words.now at result }
{
    if at >= words.len() {
        return stretch(0, 0, 1);
    }
    let head = word_at(words, at);
    let long = payload(head);
    let n = arguments(words, at) as usize;
    match NodeKind::of(head) {
        NodeKind::Bin => stretch(at + 4, 2, 1),
        NodeKind::Unary => stretch(at + 4, 1, 1),
        NodeKind::Let => stretch(at + 3, 1, 1),
        NodeKind::Fn => stretch(at + 5 + 2 * n, long.saturating_sub(5 + 2 * n), 1),
        NodeKind::Call => stretch(at + 2, 1 + long.saturating_sub(3), 1),
        NodeKind::Field => stretch(at + 2, 1, 1),
        NodeKind::Cast => stretch(at + 3, 1, 1),
        NodeKind::Record => stretch(at + 4, long.saturating_sub(3) / 2, 2),
        NodeKind::Array => stretch(at + 3, long.saturating_sub(3), 1),
        _ => stretch(0, 0, 1),
    }
}

// The parts of the node at a place.
pub fn parts_at(words: &[u32], at: usize) -> Parts
    ensures { PartsHere words.now at result }
{
    if at >= words.len() {
        return Parts::Run(stretch(0, 0, 1));
    }
    let head = word_at(words, at);
    match NodeKind::of(head) {
        NodeKind::Match => Parts::Cases(Cases {
            from: at + 3,
            count: word_at(words, at + 2) as usize,
            end: at + payload(head),
        }),
        _ => Parts::Run(run_at(words, at)),
    }
}
