// Refusal 4: "a node claimed twice as part or root, or a slot owned twice". The marks stand in local arrays.
#![tactic(auto)]

ghost use Rattle.std.specs.Prelude.{◌≡◌, [], ◌∷◌, ◌+◌, ◌*◌, ◌^◌, ◌≤◌, ◌<◌, length};
ghost use Rattle.std.specs.Result.{is_err};
ghost use Rattle.reader.specs.Reading.{offending};
ghost use Rattle.ast.specs.Image.{node_count, root_count};
ghost use Rattle.ast.specs.Claims.{count_from};
ghost use Rattle.image_laws.specs.OutlineAt.{parts_from, case_parts, parts_at, outlines_from};
ghost use Rattle.claims.specs.Marks.{claims_by, claims_in, Marking, Claiming};

use ast::{MOST_NODES, MOST_SLOTS};
use node_parts::{Cases, Parts, Run};
use reader::Fault;
use tok::word_at;

// A number is marked already.
#[derive(Clone, Copy)]
struct Twice;

// Marks. Each function ends at the first number that was marked already.

// One number. Past the end nothing is marked.
fn mark(marks: &mut [bool], x: usize) -> Result<(), Twice>
    ensures { Marking marks.old (x ∷ []) marks.new (is_err result) }
{
    if x >= marks.len() {
        return Ok(());
    }
    if marks[x] {
        return Err(Twice);
    }
    marks[x] = true;
    Ok(())
}

// The numbers in a run of words.
fn mark_run(words: &[u32], run: Run, marks: &mut [bool]) -> Result<(), Twice>
    requires { (run.step ≤ 2) × (run.from + 2 * run.count < 2 ^ 63) }
    ensures { Marking marks.old (parts_from words.now run.step run.from run.count) marks.new (is_err result) }
{
    for k in 0..run.count {
        mark(marks, run.number(words, k) as usize)?;
    }
    Ok(())
}

// n words, one after the other.
fn mark_words(words: &[u32], from: usize, n: usize, marks: &mut [bool]) -> Result<(), Twice>
    requires { from + 2 * n < 2 ^ 63 }
    ensures { Marking marks.old (parts_from words.now 1 from n) marks.new (is_err result) }
{
    mark_run(
        words,
        Run {
            from,
            count: n,
            step: 1,
        },
        marks,
    )
}

// The conditions and bodies of the cases of a Match, and its default.
fn mark_cases(words: &[u32], cases: Cases, marks: &mut [bool]) -> Result<(), Twice>
    requires { (cases.from ≤ length words.now + 3) × (cases.count < 2 ^ 32) × (cases.end < 2 ^ 62) }
    ensures { Marking marks.old (case_parts words.now cases.end cases.from cases.count) marks.new (is_err result) }
{
    let mut at = cases.from;
    for _ in 0..cases.count {
        mark(marks, word_at(words, at + 1) as usize)?;
        let n = word_at(words, at + 2) as usize;
        mark_words(words, at + 3, n, marks)?;
        at = at + 3 + n;
    }
    mark_words(words, at + 1, cases.end.saturating_sub(at + 1), marks)
}

// The parts of the node at a place.
fn mark_parts(words: &[u32], at: usize, marks: &mut [bool]) -> Result<(), Twice>
    ensures { Marking marks.old (parts_at words.now at) marks.new (is_err result) }
{
    match node_parts::parts_at(words, at) {
        Parts::Run(run) => mark_run(words, run, marks),
        Parts::Cases(cases) => mark_cases(words, cases, marks),
    }
}

// n numbers from the first on.
fn mark_count(first: usize, n: usize, marks: &mut [bool]) -> Result<(), Twice>
    requires { first + n < 2 ^ 63 }
    ensures { Marking marks.old (count_from first n) marks.new (is_err result) }
{
    for x in first..first + n {
        mark(marks, x)?;
    }
    Ok(())
}

// Claims.

// What the node at a place claims: its parts, and its slot with one after it per argument.
fn mark_node(words: &[u32], at: usize, nodes: &mut [bool], slots: &mut [bool]) -> Result<(), Twice>
    ensures { Claiming words.now at nodes.old slots.old nodes.new slots.new (is_err result) }
{
    let slot = node_parts::slot(words, at) as usize;
    let n = node_parts::arguments(words, at) as usize;
    mark_parts(words, at, nodes)?;
    mark_count(slot, n + 1, slots)
}

// All nodes, then the roots, with marks for what is claimed before.
fn claims_by(words: &[u32], nodes: &mut [bool], slots: &mut [bool]) -> Result<(), Fault>
    ensures { offending result ≡ claims_by nodes.old slots.old 0 (parts_from words.now 1 4 (root_count words.now))
        (outlines_from words.now 0 (node_count words.now)) }
{
    let n = ast::node_count(words) as usize;
    let roots = ast::root_count(words) as usize;
    let mut at = 4 + roots;
    for i in 0..n {
        mark_node(words, at, nodes, slots).or(Err(Fault(i)))?;
        at = node_parts::after(words, at);
    }
    mark_words(words, 4, roots, nodes).or(Err(Fault(n)))
}

// The second claimant of a node or slot, nodes rising, then N for roots; if there is none the image is accepted.
pub fn claims(words: &[u32]) -> Result<(), Fault>
    ensures { offending result ≡ claims_in words.now }
{
    let mut nodes = [false; MOST_NODES];
    let mut slots = [false; MOST_SLOTS];
    claims_by(words, &mut nodes, &mut slots)
}
