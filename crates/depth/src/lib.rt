// Refusal 5: "depth 65". The depths of the nodes stand in a local array.
#![tactic(auto)]

ghost use Rattle.std.specs.Prelude.{◌≡◌, ◌+◌, ◌*◌, ◌^◌, ◌≤◌, ◌<◌, length};
ghost use Rattle.reader.specs.Reading.{offending};
ghost use Rattle.ast.specs.Image.{node_count};
ghost use Rattle.ast.specs.Depth.{deepest};
ghost use Rattle.image_laws.specs.OutlineAt.{parts_from, case_parts, parts_at, outlines_from};
ghost use Rattle.depth.specs.Depths.{depth_by, depth_in};

use ast::MOST_NODES;
use node_parts::{Cases, Parts, Run};
use reader::Fault;
use tok::{item_at, set_item, word_at};

// "node depth 64 (a leaf is 1)"
const MOST: u8 = 64;

// The greatest depth of parts, by the depths so far: 0 past their end.

// Of those in a run of words.
fn deepest_run(words: &[u32], run: Run, depths: &[u8]) -> u8
    requires { (run.step ≤ 2) × (run.from + 2 * run.count < 2 ^ 63) }
    ensures { result ≡ deepest depths.now (parts_from words.now run.step run.from run.count) }
{
    let mut d = 0u8;
    for k in 0..run.count {
        d = d.max(item_at(depths, run.number(words, k) as usize, 0));
    }
    d
}

// Of n words, one after the other.
fn deepest_words(words: &[u32], from: usize, n: usize, depths: &[u8]) -> u8
    requires { from + 2 * n < 2 ^ 63 }
    ensures { result ≡ deepest depths.now (parts_from words.now 1 from n) }
{
    deepest_run(
        words,
        Run {
            from,
            count: n,
            step: 1,
        },
        depths,
    )
}

// Of the conditions and bodies of the cases of a Match, and of its default.
fn deepest_cases(words: &[u32], cases: Cases, depths: &[u8]) -> u8
    requires { (cases.from ≤ length words.now + 3) × (cases.count < 2 ^ 32) × (cases.end < 2 ^ 62) }
    ensures { result ≡ deepest depths.now (case_parts words.now cases.end cases.from cases.count) }
{
    let mut at = cases.from;
    let mut d = 0u8;
    for _ in 0..cases.count {
        d = d.max(item_at(depths, word_at(words, at + 1) as usize, 0));
        let n = word_at(words, at + 2) as usize;
        d = d.max(deepest_words(words, at + 3, n, depths));
        at = at + 3 + n;
    }
    let n = cases.end.saturating_sub(at + 1);
    d.max(deepest_words(words, at + 1, n, depths))
}

// Of the node at a place.
fn deepest_part(words: &[u32], at: usize, depths: &[u8]) -> u8
    ensures { result ≡ deepest depths.now (parts_at words.now at) }
{
    match node_parts::parts_at(words, at) {
        Parts::Run(run) => deepest_run(words, run, depths),
        Parts::Cases(cases) => deepest_cases(words, cases, depths),
    }
}

// Nodes.

// All nodes, whose depths are kept as they are found.
fn depth_by(words: &[u32], depths: &mut [u8]) -> Result<(), Fault>
    ensures { offending result ≡ depth_by depths.old 0 (outlines_from words.now 0 (node_count words.now)) }
{
    let n = ast::node_count(words) as usize;
    let mut at = 4 + ast::root_count(words) as usize;
    for i in 0..n {
        let d = deepest_part(words, at, depths);
        if d >= MOST {
            return Err(Fault(i));
        }
        set_item(depths, i, 1 + d);
        at = node_parts::after(words, at);
    }
    Ok(())
}

// The smallest node of depth 65; if there is none the image is accepted.
pub fn depth(words: &[u32]) -> Result<(), Fault>
    ensures { offending result ≡ depth_in words.now }
{
    let mut depths = [0u8; MOST_NODES];
    depth_by(words, &mut depths)
}
