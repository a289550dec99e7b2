// Node::Extern: a package of its own, kept in scratch below the packages held (typecheck/lib.rs, register_extern).
// The buffers are lent in one order: slots, types, scratch; then the image.
#![tactic(auto)]

ghost use Rattle.std.specs.Prelude.{◌≡◌, List, ℕ, ◌+◌, ◌*◌, ◌^◌, ◌≤◌, ◌<◌};
ghost use Rattle.tok.specs.Text.{Texts};
ghost use Rattle.library.specs.Package.{Package};
ghost use Rattle.ast.specs.Node.{externs_from};
ghost use Rattle.state.specs.Context.{ctx};
ghost use Rattle.state.specs.World.{More};
ghost use Rattle.visit.specs.Whole.{Lent, lent};
ghost use Rattle.visit.specs.Within.{Visits};
ghost use Rattle.room_laws.specs.Room.{extern_words};
ghost use Rattle.extern_package.specs.Packing.{FunctionsRoom, WritesFunctions, ExternReady, extern_rule};

use places::Image;
use ptype::VOID_WORD;
use rules::Answer;
use state::{EXTERN, Step, Used};
use visit::{State, Visit};

// The functions, of which `count` stand in the image from word `from` on: their entries from word `at` of scratch on. An entry takes as
// many words in scratch as in the image.
pub fn extern_functions(
    types: &mut [u32],
    scratch: &mut [u32],
    image: &Image,
    used: Used,
    n: u32,
    from: usize,
    at: usize,
    count: usize,
) -> Step<()>
    requires { FunctionsRoom image.now.words image.now.places scratch.old from at count }
    ensures { WritesFunctions image.now.words n from at count types.old used scratch.old types.new scratch.new result }
{
    let mut after = used;
    let mut place = from;
    let mut to = at;
    for _ in 0..count {
        (_, after) = externs::extern_function(types, scratch, image, after, n, place, to)?;
        let size = 3 + 2 * (image.word_after(place, 2) as usize);
        place += size;
        to += size;
    }
    Ok(((), after))
}

// Node::Extern: its package stands before those held, so that it replaces one of its name. Its functions stand in the image from word
// `from` to before word `end`.
pub fn extern_package(
    slots: &mut [u32],
    types: &mut [u32],
    scratch: &mut [u32],
    image: &Image,
    st: State,
    n: u32,
    slot: u32,
    name: u32,
    from: usize,
    end: usize,
    count: u32,
) -> Visit<Answer>
    requires { ExternReady image.now.words image.now.places st scratch.old from end count }
    ensures { ((T : Texts) (ls : List Package) (v : ℕ) (words f d m : List ℕ) (o : More) →
        let b : Lent = lent slots.old f types.old d m scratch.old o in
        let b' : Lent = lent slots.new f types.new d m scratch.new o in
        Visits (extern_rule (ctx T ls v) n slot name (externs_from image.now.words from count)) (extern_words (externs_from image.now.words from count)) 0 words st b b' result) }
{
    let size = 3 + (end - from);
    let start = st.held - size;
    add::set_pair(scratch, start, (EXTERN + size) as u32, name);
    operators::store(scratch, start + 2, count);
    let (_, used) = extern_functions(
        types,
        scratch,
        image,
        st.used,
        n,
        from,
        start + 3,
        count as usize,
    )?;
    operators::store(slots, slot as usize, VOID_WORD);
    let held = State {
        used,
        held: start,
        packages: st.packages + 1,
        ..st
    };
    Ok((Answer::Known(slot), held))
}
