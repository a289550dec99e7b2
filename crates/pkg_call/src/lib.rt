// Typechecker::resolve_pkg_call, after the arguments are visited: a call of a package's function.
// The buffers are lent in one order: slots, types, diagnostics, messages, scratch; then what the walk reads.
#![tactic(auto)]

ghost use Rattle.std.specs.Prelude.{◌≡◌, List, ℕ};
ghost use Rattle.tok.specs.Text.{Texts, name_bytes};
ghost use Rattle.library.specs.Package.{Package, group_of};
ghost use Rattle.library.specs.PackagesRead.{package_at};
ghost use Rattle.rules.specs.declared.Answer.{Answer};
ghost use Rattle.rules.specs.World.{Walk};
ghost use Rattle.rules.specs.Calls.{Provided, resolve_pkg_call};
ghost use Rattle.state.specs.Context.{ctx};
ghost use Rattle.state.specs.Store.{extern_at};
ghost use Rattle.call_args.specs.Given.{given_from};
ghost use Rattle.places.specs.Image.{Image};
ghost use Rattle.state.specs.World.{More};
ghost use Rattle.visit.specs.Whole.{Lent, lent};
ghost use Rattle.visit.specs.Within.{Visits};
ghost use Rattle.pkg_group.specs.Groups.{InGroup};
ghost use Rattle.pkg_call.specs.Found.{candidates_at};
ghost use Rattle.pkg_call.specs.Ready.{GatheredReady, LibraryReady, HeldReady, PkgReady};
ghost use Rattle.pkg_call.specs.Calls.{LibraryCalls, HeldCalls};

use call_args::PackageCall;
use pkg_group::{Candidates, in_group};
use places::Image;
use ptype::Types;
use rules::Answer;
use scope::Held;
use signatures::{Entries, Group};
use state::{HELD_TOP, Step, Used};
use tok::Texts;
use visit::{Sources, State, Visit};

// The functions of a name in the package at a word, which stand after its own name and their count; past the end of the words there are none.
fn candidates_at<'a>(
    texts: &'a Texts<'a>,
    words: &'a [u32],
    flagged: bool,
    at: usize,
    name: u32,
) -> Group<'a>
    ensures { result ≡ candidates_at texts.now (name_bytes texts.now name) words.now flagged at }
{
    Group {
        texts,
        name: tok::name_bytes(texts, name),
        entries: Entries {
            words,
            flagged,
            from: at.min(words.len()) + 2,
            count: library::Package { words, at }.function_count(),
        },
    }
}

// A call into the library's package at word `at`. The bindings of a function with slots stand in scratch from word 8,192 on, where the walk
// keeps nothing: such a function is alone in its group, so that the types of the arguments, which only a group of several is selected by,
// need not be lent with them.
fn in_library(
    slots: &mut [u32],
    types: &mut [u32],
    diagnostics: &mut [u32],
    messages: &mut [u8],
    scratch: &mut [u32],
    sources: &Sources,
    used: Used,
    top: usize,
    call: PackageCall,
    at: usize,
) -> Step<Answer>
    requires { let i : Image = sources.now.image.now in
        LibraryReady sources.now.texts.now i.words i.places sources.now.library.now scratch.old top call.site.n at call.site.args call.site.count slots.old types.old used.types }
    ensures { let given : List Provided = given_from sources.now.image.now.words call.site.args call.site.count in
        LibraryCalls sources.now.texts.now call.site.n call.site.slot call.pkg call.name given call.poisoned (package_at sources.now.library.now at)
        scratch.old slots.old types.old diagnostics.old messages.old used
        scratch.new slots.new types.new diagnostics.new messages.new result }
{
    let group = candidates_at(sources.texts, sources.library, true, at, call.name);
    let found = pkg_group::find_candidates(&group);
    let Candidates::Slotted(candidate) = found else {
        let end = top + call.site.count;
        return in_group(
            slots,
            &Types {
                words: &types[..],
                texts: sources.texts,
            },
            diagnostics,
            messages,
            &scratch[top..end],
            sources.image,
            used,
            call,
            &group,
            found,
        );
    };
    slotted_call::check_slotted(
        slots,
        types,
        diagnostics,
        messages,
        &mut scratch[HELD_TOP..],
        sources.texts,
        sources.image,
        used,
        call.site,
        call.callee(),
        &candidate.signature(true),
    )
}

// A call into the Extern's package at word `at` of scratch. Its functions have no slots.
fn in_extern(
    slots: &mut [u32],
    types: &Types,
    diagnostics: &mut [u32],
    messages: &mut [u8],
    scratch: &[u32],
    image: &Image,
    used: Used,
    top: usize,
    call: PackageCall,
    at: usize,
) -> Step<Answer>
    requires { let T : Texts = types.now.texts.now in let i : Image = image.now in
        GatheredReady T i.words i.places scratch.now top call.site.n call.site.args call.site.count slots.old types.now.words.now used.types }
    ensures { let T : Texts = types.now.texts.now in
        let given : List Provided = given_from image.now.words call.site.args call.site.count in
        InGroup T call.site.n call.site.slot call.pkg call.name given call.poisoned
        (group_of T (name_bytes T call.name) (extern_at scratch.now at).functions) slots.old types.now.words.now diagnostics.old messages.old used
        slots.new types.now.words.now diagnostics.new messages.new result }
{
    let group = candidates_at(types.texts, scratch, false, at, call.name);
    let found = pkg_group::find_candidates(&group);
    let end = top + call.site.count;
    in_group(
        slots,
        types,
        diagnostics,
        messages,
        &scratch[top..end],
        image,
        used,
        call,
        &group,
        found,
    )
}

// The newest package of the name among those held: 15 where there is none. The types of the arguments stand from word `top` of scratch on.
fn in_held(
    slots: &mut [u32],
    types: &mut [u32],
    diagnostics: &mut [u32],
    messages: &mut [u8],
    scratch: &mut [u32],
    sources: &Sources,
    st: State,
    top: usize,
    call: PackageCall,
) -> Step<Answer>
    requires { let i : Image = sources.now.image.now in
        HeldReady sources.now.texts.now i.words i.places sources.now.library.now scratch.old st.held st.packages top call.site.n call.site.args call.site.count slots.old types.old
        st.used.types }
    ensures { let given : List Provided = given_from sources.now.image.now.words call.site.args call.site.count in
        HeldCalls sources.now.texts.now call.site.n call.site.slot call.pkg call.name given call.poisoned sources.now.library.now st.held st.packages
        scratch.old slots.old types.old diagnostics.old messages.old st.used
        scratch.new slots.new types.new diagnostics.new messages.new result }
{
    let used = st.used;
    let texts = sources.texts;
    let library = sources.library;
    match scope::find_held(texts, library, &scratch[..], st.held, st.packages, call.pkg) {
        Some(Held::Library(at)) => in_library(
            slots,
            types,
            diagnostics,
            messages,
            scratch,
            sources,
            used,
            top,
            call,
            at,
        ),
        Some(Held::Extern(at)) => in_extern(
            slots,
            &Types {
                words: &types[..],
                texts,
            },
            diagnostics,
            messages,
            &scratch[..],
            sources.image,
            used,
            top,
            call,
            at,
        ),
        None => {
            let r = err_calls::missing_package(diagnostics, messages, used.told, texts, call.pkg);
            state::told(call.site.n, used, r, Answer::Poison)
        }
    }
}

// A call of a package's function. The types of its arguments are gathered in scratch, between the names in scope and the packages held.
pub fn resolve_pkg_call(
    slots: &mut [u32],
    types: &mut [u32],
    diagnostics: &mut [u32],
    messages: &mut [u8],
    scratch: &mut [u32],
    sources: &Sources,
    st: State,
    call: PackageCall,
) -> Visit<Answer>
    requires { let i : Image = sources.now.image.now in
        PkgReady sources.now.texts.now i.words i.places sources.now.library.now st scratch.old call.site.n call.site.args call.site.count slots.old types.old }
    ensures { ((ls : List Package) (v : ℕ) (f : List ℕ) (o : More) →
        let b : Lent = lent slots.old f types.old diagnostics.old messages.old scratch.old o in
        let b' : Lent = lent slots.new f types.new diagnostics.new messages.new scratch.new o in
        let given : List Provided = given_from sources.now.image.now.words call.site.args call.site.count in
        let rule : Walk Answer = resolve_pkg_call (ctx sources.now.texts.now ls v) call.site.n call.site.slot call.pkg call.name given call.poisoned in
        Visits rule call.site.count 0 sources.now.library.now st b b' result) }
{
    let top = 2 * (st.names.base + st.names.depth);
    let end = top + call.site.count;
    call_types::gather_types(&mut scratch[top..end], &slots[..], sources.image, call.site);
    let step = in_held(
        slots,
        types,
        diagnostics,
        messages,
        scratch,
        sources,
        st,
        top,
        call,
    );
    visit::answered(st, step)
}
