// The arguments of a function that is defined: their types, slots and names in scope (typecheck/lib.rs, Node::Fn).
// The buffers are lent in one order: slots, types, scratch; then the image.
#![tactic(auto)]

ghost use Rattle.std.specs.Prelude.{◌≡◌, List, ℕ, ◌+◌, ◌*◌, ◌≤◌, ◌<◌};
ghost use Rattle.tok.specs.Text.{Texts};
ghost use Rattle.library.specs.Package.{Package};
ghost use Rattle.ast.specs.TypeExpr.{args_from};
ghost use Rattle.rules.specs.Rules.{fn_arguments};
ghost use Rattle.state.specs.Context.{ctx};
ghost use Rattle.state.specs.World.{More};
ghost use Rattle.visit.specs.Whole.{Lent, lent};
ghost use Rattle.parameters.specs.Arguments.{ArgumentReady, ArgumentsReady, Argues};

use places::Image;
use type_expr::type_from_type_expr;
use visit::{State, Visit};

// One argument, whose name and type stand at a word of the image: its type is added, recorded in its slot, and its name bound.
pub fn one_argument(
    slots: &mut [u32],
    types: &mut [u32],
    scratch: &mut [u32],
    image: &Image,
    st: State,
    n: u32,
    slot: usize,
    at: usize,
) -> Visit<()>
    requires { ArgumentReady image.now.words image.now.places st scratch.old at }
    ensures { ((T : Texts) (ls : List Package) (v : ℕ) (words f d m : List ℕ) (o : More) →
        let b : Lent = lent slots.old f types.old d m scratch.old o in
        let b' : Lent = lent slots.new f types.new d m scratch.new o in
        Argues (fn_arguments (ctx T ls v) n slot (args_from image.now.words at 1)) 1 words st b b' result) }
{
    let name = image.word_at(at);
    let t = image.word_after(at, 1);
    let added = type_from_type_expr(types, st.used.types, image, t);
    let (w, used) = state::added(n, st.used, added)?;
    operators::store(slots, slot, w);
    names::bind_name(scratch, st.names, name, w);
    Ok(((), names::one_more(st, used)))
}

// The arguments, of which `count` stand in the image from word `at` on; "An Fn owns its slot and one after it per argument".
pub fn fn_arguments(
    slots: &mut [u32],
    types: &mut [u32],
    scratch: &mut [u32],
    image: &Image,
    st: State,
    n: u32,
    slot: usize,
    at: usize,
    count: usize,
) -> Visit<()>
    requires { ArgumentsReady image.now.words image.now.places st scratch.old slot at count }
    ensures { ((T : Texts) (ls : List Package) (v : ℕ) (words f d m : List ℕ) (o : More) →
        let b : Lent = lent slots.old f types.old d m scratch.old o in
        let b' : Lent = lent slots.new f types.new d m scratch.new o in
        Argues (fn_arguments (ctx T ls v) n slot (args_from image.now.words at count)) count words st b b' result) }
{
    let mut after = st;
    for k in 0..count {
        (_, after) = one_argument(slots, types, scratch, image, after, n, slot + k, at + 2 * k)?;
    }
    Ok(((), after))
}
