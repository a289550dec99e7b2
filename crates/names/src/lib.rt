// Names in scope: binding them, and the rules of names and of lets (typecheck/lib.rs: `env_insert`, Node::Ident, Node::Let).
// The buffers are lent in one order: slots, diagnostics, messages, scratch; then the texts.
#![tactic(auto)]

ghost use Rattle.std.specs.Prelude.{◌≡◌, List, [], ◌∷◌, ℕ, ◌+◌, ◌*◌, ◌≤◌, ◌<◌, ◌^◌};
ghost use Rattle.tok.specs.Word.{kind_of};
ghost use Rattle.ptype.specs.Add.{write};
ghost use Rattle.library.specs.Package.{Package};
ghost use Rattle.rules.specs.Rules.{ident};
ghost use Rattle.state.specs.Context.{ctx};
ghost use Rattle.state.specs.World.{More};
ghost use Rattle.visit.specs.Whole.{Lent, lent};
ghost use Rattle.visit.specs.Within.{Visits};
ghost use Rattle.visit.specs.Free.{Free};
ghost use Rattle.names.specs.Bound.{local_words, one_more, Bindable, let_end};

use ptype::VOID_WORD;
use rules::Answer;
use scope::{Binding, Names};
use state::Used;
use tok::Texts;
use visit::{State, Visit};

// Typechecker::env_insert: a name and its type, after the names in scope.
pub fn bind_name(scratch: &mut [u32], names: Names, name: u32, ty: u32)
    requires { names.base + names.depth ≤ 4096 }
    ensures { scratch.new ≡ write scratch.old (2 * (names.base + names.depth)) (name ∷ ty ∷ []) }
{
    add::set_pair(scratch, 2 * (names.base + names.depth), name, ty);
}

// The same of a poisoned binding: its name has kind 13 in place of 12.
pub fn bind_poisoned(scratch: &mut [u32], names: Names, name: u32)
    requires { (names.base + names.depth ≤ 4096) × (kind_of name ≡ 12) }
    ensures { scratch.new ≡ write scratch.old (2 * (names.base + names.depth)) ((name + 2 ^ 28) ∷ 0 ∷ []) }
{
    add::set_pair(scratch, 2 * (names.base + names.depth), name + tok::KIND, 0);
}

// Either of the two.
#[tactic(auto, unfolding(crate::specs::Bound::local_words))]
fn bind(scratch: &mut [u32], names: Names, name: u32, binding: Binding)
    requires { (names.base + names.depth ≤ 4096) × (kind_of name ≡ 12) }
    ensures { scratch.new ≡ write scratch.old (2 * (names.base + names.depth)) (local_words name binding) }
{
    match binding {
        Binding::Bound(w) => bind_name(scratch, names, name, w),
        Binding::Poisoned => bind_poisoned(scratch, names, name),
    }
}

// The state with one more name in scope.
pub fn one_more(st: State, used: Used) -> State
    requires { st.names.base + st.names.depth ≤ 4096 }
    ensures { result ≡ one_more st used }
{
    State {
        used,
        names: Names {
            depth: st.names.depth + 1,
            ..st.names
        },
        ..st
    }
}

// Node::Ident: 3 where no binding is found; a poisoned binding poisons in silence.
pub fn ident(
    slots: &mut [u32],
    diagnostics: &mut [u32],
    messages: &mut [u8],
    scratch: &[u32],
    texts: &Texts,
    st: State,
    n: u32,
    slot: u32,
    name: u32,
) -> Visit<Answer>
    requires { st.names.base + st.names.depth ≤ 4096 }
    ensures { ((ls : List Package) (v : ℕ) (words f t : List ℕ) (o : More) →
        let b : Lent = lent slots.old f t diagnostics.old messages.old scratch.now o in
        let b' : Lent = lent slots.new f t diagnostics.new messages.new scratch.now o in
        Visits (ident (ctx texts.now ls v) n slot name) 0 0 words st b b' result) }
{
    let used = st.used;
    match scope::env_get(texts, scratch, st.names, name) {
        Some(Binding::Bound(w)) => visit::answered(st, operators::set_known(slots, used, slot, w)),
        Some(Binding::Poisoned) => Ok((Answer::Poison, st)),
        None => {
            let counts = used.told;
            let none = err_names::no_binding(diagnostics, messages, counts, texts, name);
            visit::answered(st, state::told(n, used, none, Answer::Poison))
        }
    }
}

// The end of Node::Let, of what its right side answered: the name is bound, to nothing where that is poisoned or Void. A let is Void.
pub fn let_end(
    slots: &mut [u32],
    diagnostics: &mut [u32],
    messages: &mut [u8],
    scratch: &mut [u32],
    st: State,
    n: u32,
    slot: u32,
    name: u32,
    answer: Answer,
) -> Visit<Answer>
    requires { Bindable st scratch.old name }
    ensures { ((words f t : List ℕ) (o : More) →
        let b : Lent = lent slots.old f t diagnostics.old messages.old scratch.old o in
        let b' : Lent = lent slots.new f t diagnostics.new messages.new scratch.new o in
        Visits (let_end n slot name answer) 2 0 words st b b' result) }
{
    let used = st.used;
    let (binding, used) = values::let_binding(slots, diagnostics, messages, used, n, name, answer)?;
    bind(scratch, st.names, name, binding);
    let st = one_more(st, used);
    visit::answered(st, operators::set_known(slots, st.used, slot, VOID_WORD))
}
