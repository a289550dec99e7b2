// The type of a Record (typecheck/lib.rs, `node`: Node::Record) once its values are visited: room for all of its fields first, then the
// pairs, then the measure and the node's slot. The values' types are read from their slots, so that nothing is kept while they are visited.
#![tactic(auto)]

ghost use Rattle.std.specs.Prelude.{◌≡◌, List, ℕ, ◌+◌, ◌≤◌, get_or};
ghost use Rattle.tok.specs.Text.{Texts};
ghost use Rattle.ptype.specs.Add.{write, add_record};
ghost use Rattle.add.specs.Answer.{Allocates};
ghost use Rattle.places.specs.NodesAt.{NodeReady};
ghost use Rattle.spans.specs.Ready.{ValuesReady};
ghost use Rattle.state.specs.World.{More};
ghost use Rattle.visit.specs.Whole.{Lent, lent};
ghost use Rattle.visit.specs.Within.{Visits};
ghost use Rattle.fields.specs.Read.{node_value, pairs_read};
ghost use Rattle.fields.specs.Parts.{record_of};

use add::{AddError, Arena};
use places::{Image, NodeAt};
use ptype::UNKNOWN_WORD;
use rules::Answer;
use visit::{State, Visit};

// The type word of the value of node n: Unknown where it was poisoned.
#[tactic(auto, unfolding(crate::specs::Read::node_value, crate::specs::Read::value_of))]
fn node_value(slots: &[u32], image: &Image, n: u32) -> u32
    requires { NodeReady image.now.words image.now.places n }
    ensures { result ≡ node_value image.now.words slots.now n }
{
    let w = tok::word_at(slots, call_args::slot_of(image, n) as usize);
    if w == 0 {
        return UNKNOWN_WORD;
    }
    w
}

// The pairs of a Record of `count` names and values, into the types from `to` on.
fn set_pairs(slots: &[u32], types: &mut [u32], node: &NodeAt, count: usize, to: usize)
    requires { (to ≤ 268435456) × ValuesReady node.now.image.now.words node.now.image.now.places node.now.n (node.now.at + 3) count }
    ensures { types.new ≡ write types.old to (pairs_read node.now.image.now.words slots.now (node.now.at + 3) count) }
{
    for i in 0..count {
        let pair = node.at + 3 + 2 * i;
        let name = node.image.word_at(pair);
        let value = node.image.word_after(pair, 1);
        let ty = node_value(slots, node.image, value);
        add::set_pair(types, to + 2 * i, name, ty);
    }
}

// Adds the type of a Record of `count` fields: room for all of it first, then its pairs, then the measure.
fn add_record(
    arena: &mut Arena,
    slots: &[u32],
    node: &NodeAt,
    count: usize,
) -> Result<u32, AddError>
    requires { ValuesReady node.now.image.now.words node.now.image.now.places node.now.n (node.now.at + 3) count }
    ensures { Allocates (λ t n. add_record t n (pairs_read node.now.image.now.words slots.now (node.now.at + 3) count)) arena.old result arena.new }
{
    let word = arena.open_record(count)?;
    let to = tok::payload(word) + 1;
    set_pairs(slots, arena.words, node, count, to);
    arena.close_record(word)
}

// Node::Record after the visits of its `count` values.
pub fn make(
    slots: &mut [u32],
    types: &mut [u32],
    node: &NodeAt,
    count: usize,
    st: State,
) -> Visit<Answer>
    requires { ValuesReady node.now.image.now.words node.now.image.now.places node.now.n (node.now.at + 3) count }
    ensures { let I : List ℕ = node.now.image.now.words in
        ((T : Texts) (words f d m e : List ℕ) (o : More) →
        let b : Lent = lent slots.old f types.old d m e o in
        let b' : Lent = lent slots.new f types.new d m e o in
        Visits (record_of T node.now.n (get_or I (node.now.at + 1) 0) (pairs_read I slots.old (node.now.at + 3) count)) 0 0 words st b b' result) }
{
    let used = st.used;
    let mut arena = Arena::new(types, used.types);
    let added = add_record(&mut arena, &slots[..], node, count);
    let (word, used) = state::added(node.n, used, arena.answer(added))?;
    let step = operators::set_known(slots, used, node.word(1), word);
    visit::answered(st, step)
}
