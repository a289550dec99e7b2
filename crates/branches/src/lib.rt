// Node::Match beside its visits (typecheck/lib.rs): a case's condition, what its branches answered, and the branches compared with the
// default. The buffers are lent in one order: slots, types (with the texts), diagnostics, messages; then the image.
#![tactic(auto)]

ghost use Rattle.std.specs.Prelude.{◌≡◌, List, ℕ, ◌+◌, ◌≤◌, eqb};
ghost use Rattle.tok.specs.Word.{kind_of};
ghost use Rattle.library.specs.Package.{Package};
ghost use Rattle.ast.specs.Image.{word_at};
ghost use Rattle.places.specs.NodesAt.{NodeReady};
ghost use Rattle.rules.specs.Rules.{condition, compare_branches, matched};
ghost use Rattle.state.specs.Context.{ctx};
ghost use Rattle.state.specs.World.{More, Steps};
ghost use Rattle.spans.specs.Ready.{NodesReady, CasesReady};
ghost use Rattle.visit.specs.Whole.{Lent, lent};
ghost use Rattle.visit.specs.Within.{Visits};
ghost use Rattle.branches.specs.Branches.{is_field, node_answer, body_answer, branches_from};

use ast::NodeKind;
use call_args::slot_of;
use places::{Image, NodeAt};
use ptype::{TypeKind, Types};
use rules::Answer;
use state::{Step, Used};
use tok::word_at;
use visit::{State, Visit};

// The condition of the case at word `at`, of what it answered: 23 where it is not Bool.
pub fn condition(
    slots: &[u32],
    types: &Types,
    diagnostics: &mut [u32],
    messages: &mut [u8],
    image: &Image,
    at: usize,
    st: State,
    n: u32,
    answer: Answer,
) -> Visit<()>
    ensures { ((ls : List Package) (v : ℕ) (words f e : List ℕ) (o : More) →
        let b : Lent = lent slots.now f types.now.words.now diagnostics.old messages.old e o in
        let b' : Lent = lent slots.now f types.now.words.now diagnostics.new messages.new e o in
        Visits (condition (ctx types.now.texts.now ls v) n (word_at image.now.words at) answer) 0 0 words st b b' result) }
{
    let used = st.used;
    let token = image.word_at(at);
    let step = values::condition(slots, types, diagnostics, messages, used, n, token, answer);
    visit::answered(st, step)
}

// The word after the case at word `at`: token, condition, body count, body.
pub fn case_end(image: &Image, at: usize) -> usize
    requires { at ≤ 8192 }
    ensures { result ≡ at + 3 + word_at image.now.words (at + 2) }
{
    at + 3 + image.word_after(at, 2) as usize
}

// The branches, once all bodies are visited: their answers are read from slots, so that no Match keeps room for them while it visits.

// Whether node n is a Field.
fn is_field(image: &Image, n: u32) -> bool
    requires { NodeReady image.now.words image.now.places n }
    ensures { result ≡ is_field image.now.words n }
{
    matches!(image.node(n).kind(), NodeKind::Field)
}

// Whether a type's word is Unknown's.
fn is_unknown(w: u32) -> bool
    ensures { result ≡ eqb (kind_of w) 11 }
{
    matches!(TypeKind::of(w), TypeKind::Unknown)
}

// What node n has answered: poisoned it left no type in its slot, or Unknown where it read a field of that type.
#[tactic(auto, unfolding(crate::specs::Branches::node_answer, crate::specs::Branches::answer_of))]
fn node_answer(slots: &[u32], image: &Image, n: u32) -> Answer
    requires { NodeReady image.now.words image.now.places n }
    ensures { result ≡ node_answer image.now.words slots.now n }
{
    let slot = slot_of(image, n);
    let w = word_at(slots, slot as usize);
    if w == 0 {
        return Answer::Poison;
    }
    if is_unknown(w) && is_field(image, n) {
        return Answer::Poison;
    }
    Answer::Known(slot)
}

// What a body of a node has answered: its last node's answer, or slot V where it is empty.
#[tactic(auto, unfolding(crate::specs::Branches::body_answer))]
fn body_answer(slots: &[u32], node: &NodeAt, at: usize, count: usize) -> Answer
    requires { NodesReady node.now.image.now.words node.now.image.now.places node.now.n at count }
    ensures { result ≡ body_answer node.now.image.now.words slots.now at count }
{
    if count == 0 {
        return Answer::Known(node.image.slot_count());
    }
    node_answer(slots, node.image, node.image.word_after(at, count - 1))
}

// The branches of a Match against the default's slot, in order: 24 for each that differs.
fn compare_branches(
    slots: &[u32],
    types: &Types,
    diagnostics: &mut [u32],
    messages: &mut [u8],
    node: &NodeAt,
    used: Used,
    default: u32,
) -> Step<()>
    requires { CasesReady node.now.image.now.words node.now.image.now.places node.now.n (node.now.at + 3) (word_at node.now.image.now.words (node.now.at + 2)) }
    ensures { let I : List ℕ = node.now.image.now.words in
        let at : ℕ = node.now.at in
        ((ls : List Package) (v : ℕ) →
        Steps (compare_branches (ctx types.now.texts.now ls v) node.now.n default (branches_from I slots.now (at + 3) (word_at I (at + 2)))) slots.now types.now.words.now
        diagnostics.old messages.old used slots.now types.now.words.now diagnostics.new messages.new result) }
{
    let count = node.word(2) as usize;
    let mut here = used;
    let mut place = node.at + 3;
    for _ in 0..count {
        let nodes = node.image.word_after(place, 2) as usize;
        let body = place + 3;
        let answer = body_answer(slots, node, body, nodes);
        let (_, after) = values::compare_branch(
            slots,
            types,
            diagnostics,
            messages,
            here,
            node.n,
            default,
            node.image.word_at(place),
            answer,
        )?;
        here = after;
        place = body + nodes;
    }
    Ok(((), here))
}

// The end of a Match, of what the default's body answered: "self.alias(*id, first_type)".
pub fn end(
    slots: &mut [u32],
    types: &Types,
    diagnostics: &mut [u32],
    messages: &mut [u8],
    node: &NodeAt,
    st: State,
    default: Answer,
) -> Visit<Answer>
    requires { CasesReady node.now.image.now.words node.now.image.now.places node.now.n (node.now.at + 3) (word_at node.now.image.now.words (node.now.at + 2)) }
    ensures { let I : List ℕ = node.now.image.now.words in
        let at : ℕ = node.now.at in
        ((ls : List Package) (v : ℕ) (words f e : List ℕ) (o : More) →
        let b : Lent = lent slots.old f types.now.words.now diagnostics.old messages.old e o in
        let b' : Lent = lent slots.new f types.now.words.now diagnostics.new messages.new e o in
        Visits (matched (ctx types.now.texts.now ls v) node.now.n (word_at I (at + 1)) (branches_from I slots.old (at + 3) (word_at I (at + 2))) default) 0 0 words st b b' result) }
{
    let Answer::Known(slot) = default else {
        return Ok((Answer::Poison, st));
    };
    let used = st.used;
    let (_, after) = compare_branches(&slots[..], types, diagnostics, messages, node, used, slot)?;
    let own = node.word(1);
    visit::answered(st, values::alias(slots, after, own, slot))
}
