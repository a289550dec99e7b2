// The nodes below which nothing is visited (typecheck/lib.rs, `node`): Atom, Ident, Import, Extern.
#![tactic(auto)]

ghost use Rattle.std.specs.Prelude.{◌≡◌, List, ℕ, ◌<◌};
ghost use Rattle.state.specs.World.{More};
ghost use Rattle.visit.specs.Whole.{Lent, lent};
ghost use Rattle.walking.specs.Visited.{NodeVisited};
ghost use Rattle.leaves.specs.Leaves.{LeafReady};

use ast::NodeKind;
use ptype::TypeKind;
use rules::Answer;
use visit::{Sources, State, Visit};

// A node of such a kind.
pub fn leaf(
    slots: &mut [u32],
    types: &mut [u32],
    diagnostics: &mut [u32],
    messages: &mut [u8],
    scratch: &mut [u32],
    sources: &Sources,
    st: State,
    n: u32,
) -> Visit<Answer>
    requires { LeafReady sources.now.texts.now sources.now.image.now.words sources.now.image.now.places sources.now.library.now n st scratch.old }
    ensures { ((f : List ℕ) (o : More) →
        let b : Lent = lent slots.old f types.old diagnostics.old messages.old scratch.old o in
        let b' : Lent = lent slots.new f types.new diagnostics.new messages.new scratch.new o in
        NodeVisited sources.now.texts.now sources.now.image.now.words sources.now.library.now n st b b' result) }
{
    let node = sources.image.node(n);
    let slot = node.word(1);
    let first = node.word(2);
    match node.kind() {
        NodeKind::Atom => {
            let used = st.used;
            let w = TypeKind::from(node.word(3)).word(0);
            visit::answered(st, operators::set_known(slots, used, slot, w))
        }
        NodeKind::Ident => names::ident(
            slots,
            diagnostics,
            messages,
            &scratch[..],
            sources.texts,
            st,
            n,
            slot,
            first,
        ),
        NodeKind::Import => imports::import_node(
            slots,
            diagnostics,
            messages,
            scratch,
            sources,
            st,
            n,
            slot,
            first,
            node.at + 3,
            node.length() - 3,
        ),
        // Extern, which is left
        _ => extern_package::extern_package(
            slots,
            types,
            scratch,
            sources.image,
            st,
            n,
            slot,
            node.word(3),
            node.at + 5,
            node.at + node.length(),
            node.word(4),
        ),
    }
}
