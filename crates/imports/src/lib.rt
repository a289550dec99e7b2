// Node::Import: packages of the library are held (typecheck/lib.rs).
// The buffers are lent in one order: diagnostics, messages, scratch; then what the walk reads.
#![tactic(auto)]

ghost use Rattle.std.specs.Prelude.{◌≡◌, List, ℕ, ◌+◌, ◌≤◌, ◌<◌};
ghost use Rattle.library.specs.Package.{packages_of};
ghost use Rattle.ast.specs.Node.{words_from};
ghost use Rattle.rules.specs.Rules.{import_one, import_all};
ghost use Rattle.state.specs.Context.{ctx};
ghost use Rattle.state.specs.World.{More};
ghost use Rattle.visit.specs.Whole.{Lent, lent};
ghost use Rattle.visit.specs.Within.{Visits};
ghost use Rattle.imports.specs.Holding.{one_held, CanHold, CanHoldAll, import_rule};

use ptype::VOID_WORD;
use rules::Answer;
use visit::{Sources, State, Visit};

// The state with one more package of the library held.
fn one_held(st: State) -> State
    requires { (0 < st.held) × (st.packages ≤ 8192) }
    ensures { result ≡ one_held st }
{
    State {
        held: st.held - 1,
        packages: st.packages + 1,
        ..st
    }
}

// One path: "an Import of one already held does nothing; the first library package of a name is found"; 26 where there is none.
pub fn import_one(
    diagnostics: &mut [u32],
    messages: &mut [u8],
    scratch: &mut [u32],
    sources: &Sources,
    st: State,
    n: u32,
    path: u32,
) -> Visit<()>
    requires { CanHold sources.now.texts.now sources.now.library.now st scratch.old }
    ensures { let W : List ℕ = sources.now.library.now in
        ((v : ℕ) (s f t : List ℕ) (o : More) →
        let b : Lent = lent s f t diagnostics.old messages.old scratch.old o in
        let b' : Lent = lent s f t diagnostics.new messages.new scratch.new o in
        Visits (import_one (ctx sources.now.texts.now (packages_of W) v) n path) 1 0 W st b b' result) }
{
    let texts = sources.texts;
    let words = sources.library;
    let held = scope::find_held(texts, words, &scratch[..], st.held, st.packages, path);
    if held.is_some() {
        return Ok(((), st));
    }
    let name = tok::name_bytes(texts, path);
    let Some(at) = library::find_package(texts, words, name) else {
        let counts = st.used.told;
        let none = err_names::no_import(diagnostics, messages, counts, texts, path);
        return visit::answered(st, state::told(n, st.used, none, ()));
    };
    operators::store(scratch, st.held - 1, at as u32);
    Ok(((), one_held(st)))
}

// All paths, of which `count` stand in the image from word `at` on: 25 where there is none.
pub fn import_all(
    diagnostics: &mut [u32],
    messages: &mut [u8],
    scratch: &mut [u32],
    sources: &Sources,
    st: State,
    n: u32,
    token: u32,
    at: usize,
    count: usize,
) -> Visit<()>
    requires { CanHoldAll sources.now.texts.now sources.now.library.now st scratch.old at count }
    ensures { let W : List ℕ = sources.now.library.now in
        ((v : ℕ) (s f t : List ℕ) (o : More) →
        let b : Lent = lent s f t diagnostics.old messages.old scratch.old o in
        let b' : Lent = lent s f t diagnostics.new messages.new scratch.new o in
        Visits (import_all (ctx sources.now.texts.now (packages_of W) v) n token (words_from sources.now.image.now.words at count)) count 0 W st b b' result) }
{
    if count == 0 {
        let counts = st.used.told;
        let none = err_names::empty_import(diagnostics, messages, counts, token);
        return visit::answered(st, state::told(n, st.used, none, ()));
    }
    let mut after = st;
    for k in 0..count {
        let path = sources.image.word_after(at, k);
        (_, after) = import_one(diagnostics, messages, scratch, sources, after, n, path)?;
    }
    Ok(((), after))
}

// Node::Import: its paths, and its slot is Void.
pub fn import_node(
    slots: &mut [u32],
    diagnostics: &mut [u32],
    messages: &mut [u8],
    scratch: &mut [u32],
    sources: &Sources,
    st: State,
    n: u32,
    slot: u32,
    token: u32,
    at: usize,
    count: usize,
) -> Visit<Answer>
    requires { CanHoldAll sources.now.texts.now sources.now.library.now st scratch.old at count }
    ensures { let W : List ℕ = sources.now.library.now in
        ((v : ℕ) (f t : List ℕ) (o : More) →
        let b : Lent = lent slots.old f t diagnostics.old messages.old scratch.old o in
        let b' : Lent = lent slots.new f t diagnostics.new messages.new scratch.new o in
        Visits (import_rule (ctx sources.now.texts.now (packages_of W) v) n slot token (words_from sources.now.image.now.words at count)) count 0 W st b b' result) }
{
    let (_, after) = import_all(
        diagnostics,
        messages,
        scratch,
        sources,
        st,
        n,
        token,
        at,
        count,
    )?;
    let void = operators::set_known(slots, after.used, slot, VOID_WORD);
    visit::answered(after, void)
}
