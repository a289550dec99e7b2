// An Array's members (typecheck/lib.rs, `node`: Node::Array), around their visits: each is compared with the first when it is visited, and
// one that differs ends the visits.
#![tactic(auto)]

ghost use Rattle.std.specs.Prelude.{◌≡◌, List, ℕ, ◌+◌, get_or};
ghost use Rattle.tok.specs.Text.{Texts};
ghost use Rattle.ast.specs.Node.{tree_of};
ghost use Rattle.ast.specs.Span.{span_of};
ghost use Rattle.library.specs.Package.{Package};
ghost use Rattle.err.specs.Message.{empty_array};
ghost use Rattle.rules.specs.Steps.{poison};
ghost use Rattle.rules.specs.Rules.{array_of};
ghost use Rattle.state.specs.Context.{ctx};
ghost use Rattle.places.specs.NodesAt.{NodeReady};
ghost use Rattle.state.specs.World.{More};
ghost use Rattle.visit.specs.Whole.{Lent, lent};
ghost use Rattle.visit.specs.Within.{Visits};
ghost use Rattle.members.specs.Turns.{member_turn};

use places::NodeAt;
use ptype::Types;
use rules::{Answer, Member};
use visit::{State, Visit};

// An array of no members: 1.
pub fn empty(
    diagnostics: &mut [u32],
    messages: &mut [u8],
    node: &NodeAt,
    st: State,
) -> Visit<Answer>
    ensures { ((words s f t e : List ℕ) (o : More) →
        let b : Lent = lent s f t diagnostics.old messages.old e o in
        let b' : Lent = lent s f t diagnostics.new messages.new e o in
        Visits (poison node.now.n (empty_array (get_or node.now.image.now.words (node.now.at + 2) 0))) 0 0 words st b b' result) }
{
    let used = st.used;
    let step = values::empty_array(diagnostics, messages, used, node.n, node.word(2));
    visit::answered(st, step)
}

// The member `part` of an Array, which answered `second`, against the first, which answered `first`: 2 where their types differ, and then none;
// else whether a member is poisoned so far.
pub fn member(
    slots: &[u32],
    types: &Types,
    diagnostics: &mut [u32],
    messages: &mut [u8],
    node: &NodeAt,
    st: State,
    part: u32,
    first: Answer,
    second: Answer,
    poisoned: bool,
) -> Visit<Option<bool>>
    requires { NodeReady node.now.image.now.words node.now.image.now.places part }
    ensures { ((ls : List Package) (v : ℕ) (words f e : List ℕ) (o : More) →
        let b : Lent = lent slots.now f types.now.words.now diagnostics.old messages.old e o in
        let b' : Lent = lent slots.now f types.now.words.now diagnostics.new messages.new e o in
        Visits (member_turn (ctx types.now.texts.now ls v) node.now.n (span_of (tree_of node.now.image.now.words part)) first second poisoned) 0 0 words st b b' result) }
{
    let used = st.used;
    let span = spans::span_of(node.image, part);
    let (compared, after) = values::member(
        slots,
        types,
        diagnostics,
        messages,
        used,
        node.n,
        span,
        first,
        second,
    )?;
    let turn = match compared {
        Member::Alike => Some(poisoned),
        Member::Silent => Some(true),
        Member::Differs => None,
    };
    Ok((turn, State { used: after, ..st }))
}

// The end of Node::Array, when all members are visited: an Array of the first's type, unless one is poisoned.
pub fn end(
    slots: &mut [u32],
    types: &mut [u32],
    node: &NodeAt,
    st: State,
    first: Answer,
    poisoned: bool,
) -> Visit<Answer>
    ensures { ((T : Texts) (ls : List Package) (v : ℕ) (words f d m e : List ℕ) (o : More) →
        let b : Lent = lent slots.old f types.old d m e o in
        let b' : Lent = lent slots.new f types.new d m e o in
        Visits (array_of (ctx T ls v) node.now.n (get_or node.now.image.now.words (node.now.at + 1) 0) first poisoned) 0 0 words st b b' result) }
{
    let used = st.used;
    let step = values::array_of(slots, types, used, node.n, node.word(1), first, poisoned);
    visit::answered(st, step)
}
