// A function that is defined (typecheck/lib.rs, Node::Fn): whether its name was met, what comes before its body, and what comes after.
// The buffers are lent in one order: slots, functions, types, diagnostics, messages, scratch; then the texts, the image. Who only reads types
// takes them with the texts.
#![tactic(auto)]

ghost use Rattle.std.specs.Prelude.{◌≡◌, List, ℕ, ◌+◌, ◌*◌, ◌≤◌, length};
ghost use Rattle.tok.specs.Text.{Texts};
ghost use Rattle.ptype.specs.Add.{write};
ghost use Rattle.library.specs.Package.{Package, params_from};
ghost use Rattle.ast.specs.TypeExpr.{type_of, args_from};
ghost use Rattle.type_expr.specs.Ready.{TypeReady};
ghost use Rattle.rules.specs.Steps.{pairs_of, entry_of};
ghost use Rattle.state.specs.Context.{ctx};
ghost use Rattle.state.specs.Signatures.{entries_end};
ghost use Rattle.state.specs.World.{More, Steps};
ghost use Rattle.visit.specs.Whole.{Lent, lent};
ghost use Rattle.visit.specs.Within.{Visits};
ghost use Rattle.visit.specs.Plain.{visit_of};
ghost use Rattle.functions.specs.Defined.{is_new, fn_begin, fn_end};
ghost use Rattle.functions.specs.Entering.{CopyRoom, EntryRoom, FnReady};

use parameters::fn_arguments;
use places::Image;
use ptype::Types;
use rules::Answer;
use scope::Own;
use state::{Step, Used};
use tok::{Texts, word_at};
use type_expr::type_from_type_expr;
use visit::{State, Visit};

// if self.functions.contains_key(inner_name): 8. Whether the name is new.
pub fn unless_defined(
    functions: &[u32],
    diagnostics: &mut [u32],
    messages: &mut [u8],
    texts: &Texts,
    st: State,
    n: u32,
    name: u32,
) -> Step<bool>
    requires { entries_end functions.now 0 0 st.functions ≤ length functions.now }
    ensures { ((ls : List Package) (v : ℕ) (words s t e : List ℕ) (o : More) →
        let b : Lent = lent s functions.now t diagnostics.old messages.old e o in
        let b' : Lent = lent s functions.now t diagnostics.new messages.new e o in
        Visits (is_new (ctx texts.now ls v) n name) 0 0 words st b b' (visit_of st result)) }
{
    let own = Own {
        words: functions,
        count: st.functions,
    };
    let Some(_) = own.find(texts, name) else {
        return Ok((true, st.used));
    };
    let counts = st.used.told;
    let met = err_names::defined_already(diagnostics, messages, counts, texts, name);
    state::told(n, st.used, met, false)
}

// Copies `count` pairs from a word of scratch to a word of the functions buffer.
fn copy_pairs(functions: &mut [u32], at: usize, scratch: &[u32], from: usize, count: usize)
    requires { CopyRoom functions.old at from count }
    ensures { functions.new ≡ write functions.old at (pairs_of (params_from scratch.now from count)) }
{
    for k in 0..count {
        let name = word_at(scratch, from + 2 * k);
        let ty = word_at(scratch, from + 2 * k + 1);
        add::set_pair(functions, at + 2 * k, name, ty);
    }
}

// self.functions.insert(..): an entry after those there; its pairs are the names just bound, which stand in scratch.
pub fn enter(
    functions: &mut [u32],
    scratch: &[u32],
    entries: usize,
    from: usize,
    name: u32,
    count: usize,
    ret: u32,
)
    requires { EntryRoom functions.old entries from count }
    ensures { functions.new ≡ write functions.old (entries_end functions.old 0 0 entries) (entry_of name (params_from scratch.now from count) ret) }
{
    let own = Own {
        words: &functions[..],
        count: entries,
    };
    let at = own.end();
    add::set_pair(functions, at, name, count as u32);
    copy_pairs(functions, at + 2, scratch, from, count);
    operators::store(functions, at + 2 + 2 * count, ret);
}

// Node::Fn up to its body: the arguments, the return type, and the entry, which is there before the body is visited. `slot` is that of the
// first argument; `count` arguments stand in the image from word `at` on. Gives the return type's word.
pub fn fn_begin(
    slots: &mut [u32],
    functions: &mut [u32],
    types: &mut [u32],
    scratch: &mut [u32],
    image: &Image,
    st: State,
    n: u32,
    slot: usize,
    name: u32,
    ret: u32,
    at: usize,
    count: usize,
) -> Visit<u32>
    requires { FnReady image.now.words image.now.places st functions.old scratch.old slot ret at count }
    ensures { ((T : Texts) (ls : List Package) (v : ℕ) (words d m : List ℕ) (o : More) →
        let b : Lent = lent slots.old functions.old types.old d m scratch.old o in
        let b' : Lent = lent slots.new functions.new types.new d m scratch.new o in
        Visits (fn_begin (ctx T ls v) n slot name (type_of image.now.words ret) (args_from image.now.words at count)) (2 * count) (3 + 2 * count) words st b b' result) }
{
    let (_, inner) = fn_arguments(slots, types, scratch, image, st, n, slot, at, count)?;
    let added = type_from_type_expr(types, inner.used.types, image, ret);
    let (w, used) = state::added(n, inner.used, added)?;
    let from = 2 * (st.names.base + st.names.depth);
    enter(
        functions,
        &scratch[..],
        inner.functions,
        from,
        name,
        count,
        w,
    );
    let entered = State {
        used,
        functions: inner.functions + 1,
        ..inner
    };
    Ok((w, entered))
}

// Node::Fn after its body: 9 where the body is not of the return type; the function's slot has its return type.
pub fn fn_end(
    slots: &mut [u32],
    types: &Types,
    diagnostics: &mut [u32],
    messages: &mut [u8],
    image: &Image,
    used: Used,
    n: u32,
    slot: u32,
    name: u32,
    expr: u32,
    ret: u32,
    computed: Answer,
) -> Step<Answer>
    requires { TypeReady image.now.words image.now.places expr }
    ensures { ((ls : List Package) (v : ℕ) → Steps (fn_end (ctx types.now.texts.now ls v) n slot name (type_of image.now.words expr) ret computed) slots.old types.now.words.now
        diagnostics.old messages.old used slots.new types.now.words.now diagnostics.new messages.new result) }
{
    let token = type_expr::type_token(image, expr);
    let (_, after) = values::check_return(
        &slots[..],
        types,
        diagnostics,
        messages,
        used,
        n,
        name,
        token,
        ret,
        computed,
    )?;
    operators::set_known(slots, after, slot, ret)
}
