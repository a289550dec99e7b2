// Node::Call (typecheck/lib.rs, `node`), around the visits of its arguments: what its target says, and the call once all are visited.
// The buffers are lent in one order: slots, functions, types, diagnostics, messages, scratch; then what the walk reads. Who only reads types
// takes them with the texts.
#![tactic(auto)]

ghost use Rattle.std.specs.Prelude.{◌≡◌, Bool, ◌||◌, List, ℕ, ◌+◌, get_or};
ghost use Rattle.library.specs.Package.{Package};
ghost use Rattle.rules.specs.World.{Ctx, Walk};
ghost use Rattle.rules.specs.Steps.{is_poison};
ghost use Rattle.rules.specs.Calls.{Provided, resolve_call, call};
ghost use Rattle.state.specs.Context.{ctx};
ghost use Rattle.own_call.specs.OwnCalls.{OwnReady};
ghost use Rattle.call_args.specs.Given.{given_from};
ghost use Rattle.state.specs.World.{More, no_more};
ghost use Rattle.visit.specs.Whole.{Lent, lent};
ghost use Rattle.visit.specs.Within.{Visits};
ghost use Rattle.calls.specs.Callees.{callee_at, target_callee, is_through_field, call_end, CallAt, FieldCall};
ghost use Rattle.calls.specs.CallVisits.{Resolvable};

use ast::NodeKind;
use call_args::{Call, PackageCall};
use places::{Image, NodeAt};
use ptype::Types;
use rules::Answer;
use scope::Own;
use visit::{Sources, State, Visit};

// What the target of a call is: an own function, a package's function by the names of both, or a Field of what is no Ident.
#[derive(Clone, Copy)]
enum Target {
    Own(u32),
    OfPackage(u32, u32),
    Field(u32),
}

// The target of a call.
fn target_at(node: &NodeAt) -> Target
    requires { CallAt node.now.image.now.words node.now.image.now.places node.now.at }
    ensures { callee_at node.now.image.now.words node.now.at ≡ target_callee result }
{
    let target = node.image.node(node.word(2));
    match target.kind() {
        NodeKind::Ident => Target::Own(target.word(2)),
        _ => {
            let of = node.image.node(target.word(2));
            let name = target.word(3);
            match of.kind() {
                NodeKind::Ident => Target::OfPackage(of.word(2), name),
                _ => Target::Field(name),
            }
        }
    }
}

// Is the target a Field of what is no Ident? Such a call visits none of its arguments.
#[tactic(auto, unfolding(crate::specs::Callees::is_through_field))]
pub fn through_field(node: &NodeAt) -> bool
    requires { CallAt node.now.image.now.words node.now.image.now.places node.now.at }
    ensures { result ≡ is_through_field (callee_at node.now.image.now.words node.now.at) }
{
    match target_at(node) {
        Target::Own(_) | Target::OfPackage(_, _) => false,
        Target::Field(_) => true,
    }
}

// Such a call: 14.
pub fn report_field(
    diagnostics: &mut [u32],
    messages: &mut [u8],
    node: &NodeAt,
    st: State,
) -> Visit<Answer>
    requires { FieldCall node.now.image.now.words node.now.image.now.places node.now.at }
    ensures { ((c : Ctx) (slot : ℕ) (given : List Provided) (visits : Walk Bool) (words s f t e : List ℕ) (o : More) →
        let b : Lent = lent s f t diagnostics.old messages.old e o in
        let b' : Lent = lent s f t diagnostics.new messages.new e o in
        Visits (call c node.now.n slot (callee_at node.now.image.now.words node.now.at) given visits) 0 0 words st b b' result) }
{
    let Target::Field(name) = target_at(node) else {
        unreachable!();
    };
    let used = st.used;
    let r = err_calls::call_through_field(diagnostics, messages, used.told, name);
    visit::answered(st, state::told(node.n, used, r, Answer::Poison))
}

// Is an argument poisoned, this one or one before it?
#[tactic(auto, unfolding(rules::specs::Steps::is_poison))]
pub fn or_poison(poisoned: bool, answer: Answer) -> bool
    ensures { result ≡ (poisoned || is_poison answer) }
{
    poisoned || matches!(answer, Answer::Poison)
}

// A call of an own function, whose arguments are visited.
fn resolve_own(
    slots: &mut [u32],
    functions: &[u32],
    types: &Types,
    diagnostics: &mut [u32],
    messages: &mut [u8],
    image: &Image,
    st: State,
    call: Call,
    name: u32,
) -> Visit<Answer>
    requires { OwnReady functions.now st.functions image.now.words image.now.places call.n call.args call.count }
    ensures { ((ls : List Package) (v : ℕ) (words e : List ℕ) (o : More) →
        let b : Lent = lent slots.old functions.now types.now.words.now diagnostics.old messages.old e o in
        let b' : Lent = lent slots.new functions.now types.now.words.now diagnostics.new messages.new e o in
        Visits (resolve_call (ctx types.now.texts.now ls v) call.n call.slot name (given_from image.now.words call.args call.count)) 0 0 words st b b' result) }
{
    let own = Own {
        words: functions,
        count: st.functions,
    };
    let step = own_call::resolve_call(
        slots,
        types,
        diagnostics,
        messages,
        &own,
        image,
        st.used,
        call,
        name,
    );
    visit::answered(st, step)
}

// A call whose `count` arguments are visited: of an own function, or of a package's.
pub fn resolve(
    slots: &mut [u32],
    functions: &[u32],
    types: &mut [u32],
    diagnostics: &mut [u32],
    messages: &mut [u8],
    scratch: &mut [u32],
    sources: &Sources,
    st: State,
    n: u32,
    count: usize,
    poisoned: bool,
) -> Visit<Answer>
    requires { let b : Lent = lent slots.old functions.now types.old diagnostics.old messages.old scratch.old no_more in
        let places : List ℕ = sources.now.image.now.places in
        Resolvable sources.now.texts.now sources.now.image.now.words places sources.now.library.now n (get_or places n 0) count st b }
    ensures { let b : Lent = lent slots.old functions.now types.old diagnostics.old messages.old scratch.old no_more in
        ((ls : List Package) (v : ℕ) →
        let b' : Lent = lent slots.new functions.now types.new diagnostics.new messages.new scratch.new no_more in
        let image : List ℕ = sources.now.image.now.words in
        let at : ℕ = get_or sources.now.image.now.places n 0 in
        Visits (call_end (ctx sources.now.texts.now ls v) n (get_or image (at + 1) 0) (callee_at image at) (given_from image (at + 3) count) poisoned) count 0 sources.now.library.now st b b' result) }
{
    let node = sources.image.node(n);
    let call = Call {
        n,
        slot: node.word(1),
        args: node.at + 3,
        count,
    };
    match target_at(&node) {
        Target::Own(name) => resolve_own(
            slots,
            functions,
            &Types {
                words: &types[..],
                texts: sources.texts,
            },
            diagnostics,
            messages,
            sources.image,
            st,
            call,
            name,
        ),
        Target::OfPackage(pkg, name) => {
            let call = PackageCall {
                site: call,
                pkg,
                name,
                poisoned,
            };
            pkg_call::resolve_pkg_call(
                slots,
                types,
                diagnostics,
                messages,
                scratch,
                sources,
                st,
                call,
            )
        }
        // its arguments are not visited
        Target::Field(_) => unreachable!(),
    }
}
