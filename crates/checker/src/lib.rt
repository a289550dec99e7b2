// Typechecker::check: the check as a whole, for all inputs (document 01, "The walk", "Answers that end the check").
// The buffers are lent in one order: slots, functions, types, diagnostics, messages, scratch.
#![tactic(auto)]

ghost use Rattle.std.specs.Prelude.{◌≡◌, List, ℕ};
ghost use Rattle.std.proofs.Math.Option.{none};
ghost use Rattle.refusals.specs.Inputs.{Inputs, Buffers};
ghost use Rattle.refusals.specs.Refusals.{refusal_of};
ghost use Rattle.refuse.specs.Answer.{inputs_of, buffers_of};
ghost use Rattle.rules.specs.Check.{check_of};
ghost use Rattle.tok.specs.Text.{Texts, texts_of};
ghost use Rattle.ast.specs.Image.{node_count, root_count};
ghost use Rattle.places.specs.Places.{places_of};
ghost use Rattle.state.specs.World.{no_more};
ghost use Rattle.visit.specs.Whole.{Lent, lent};
ghost use Rattle.walking.specs.Visited.{ListVisit, ListVisited};
ghost use Rattle.ending.specs.Ended.{ended_of, checked_of, answered_of, EndsAs, WalkEnds};

use ending::{Checked, Refused};
use places::Image;
use refuse::Inputs;
use rules::Answer;
use tok::Texts;
use visit::{Sources, State, Visit};

// The roots, in order. The places of the image's records are found here, once, and lent to all visits; the library is measured before, so
// that the two arrays do not stand on the stack at the same time.
fn visit_roots(
    slots: &mut [u32],
    functions: &mut [u32],
    types: &mut [u32],
    diagnostics: &mut [u32],
    messages: &mut [u8],
    scratch: &mut [u32],
    inputs: &Inputs,
    st: State,
) -> Visit<Answer>
    requires { let i : Inputs = inputs.now in let T : Texts = texts_of i.script i.library_text in let I : List ℕ = i.image in
        let b : Lent = lent slots.old functions.old types.old diagnostics.old messages.old scratch.old no_more in
        ListVisit T I (places_of I) i.library (node_count I) 4 (root_count I) st b }
    ensures { let i : Inputs = inputs.now in let T : Texts = texts_of i.script i.library_text in let I : List ℕ = i.image in
        let b : Lent = lent slots.old functions.old types.old diagnostics.old messages.old scratch.old no_more in
        let b' : Lent = lent slots.new functions.new types.new diagnostics.new messages.new scratch.new no_more in
        ListVisited T I i.library 4 (root_count I) st b b' result }
{
    let mut places = [0u16; 3072];
    places::record_places(&mut places, inputs.image);
    let nodes = ast::node_count(inputs.image);
    let roots = ast::root_count(inputs.image) as usize;
    let texts = Texts {
        script: inputs.script,
        library: inputs.library_text,
    };
    let image = Image {
        words: inputs.image,
        places: &places[..],
    };
    let sources = Sources {
        texts: &texts,
        image: &image,
        library: inputs.library,
    };
    typecheck::nodes(
        slots,
        functions,
        types,
        diagnostics,
        messages,
        scratch,
        &sources,
        st,
        nodes,
        4,
        roots,
    )
}

// The walk of accepted inputs: its beginning, and then the roots.
fn walk(
    slots: &mut [u32],
    functions: &mut [u32],
    types: &mut [u32],
    diagnostics: &mut [u32],
    messages: &mut [u8],
    scratch: &mut [u32],
    inputs: &Inputs,
) -> Visit<Answer>
    requires { let i : Inputs = inputs.now in
        let b : Buffers = buffers_of slots.old functions.old types.old diagnostics.old messages.old scratch.old in
        refusal_of i b ≡ none }
    ensures { let i : Inputs = inputs.now in
        let b : Buffers = buffers_of slots.old functions.old types.old diagnostics.old messages.old scratch.old in
        let b' : Lent = lent slots.new functions.new types.new diagnostics.new messages.new scratch.new no_more in
        WalkEnds i b b' (answered_of result) }
{
    let (_, st) = start::begin(slots, types, inputs.image, inputs.library)?;
    visit_roots(
        slots,
        functions,
        types,
        diagnostics,
        messages,
        scratch,
        inputs,
        st,
    )
}

// The check of accepted inputs.
fn check_accepted(
    slots: &mut [u32],
    functions: &mut [u32],
    types: &mut [u32],
    diagnostics: &mut [u32],
    messages: &mut [u8],
    scratch: &mut [u32],
    inputs: &Inputs,
) -> Checked
    requires { let i : Inputs = inputs.now in
        let b : Buffers = buffers_of slots.old functions.old types.old diagnostics.old messages.old scratch.old in
        refusal_of i b ≡ none }
    ensures { let i : Inputs = inputs.now in
        let before : Buffers = buffers_of slots.old functions.old types.old diagnostics.old messages.old scratch.old in
        let after : Buffers = buffers_of slots.new functions.new types.new diagnostics.new messages.new scratch.new in
        EndsAs (check_of i before) after result }
{
    let visit = walk(
        slots,
        functions,
        types,
        diagnostics,
        messages,
        scratch,
        inputs,
    )
    .map_err(Refused::from);
    ending::finish(
        slots,
        functions,
        types,
        diagnostics,
        messages,
        scratch,
        visit,
    )
}

// The check, of whatever is given; `text` is the library text. "Numbers 1 to 6 are tried in that order before the walk", and leave every
// buffer as it was.
pub fn check<'a>(
    script: &'a [u8],
    image: &[u32],
    text: &'a [u8],
    library: &[u32],
    slots: &mut [u32],
    functions: &mut [u32],
    types: &mut [u32],
    diagnostics: &mut [u32],
    messages: &mut [u8],
    scratch: &mut [u32],
) -> Checked
    ensures { let i : Inputs = inputs_of script.now image.now text.now library.now in
        let before : Buffers = buffers_of slots.old functions.old types.old diagnostics.old messages.old scratch.old in
        let after : Buffers = buffers_of slots.new functions.new types.new diagnostics.new messages.new scratch.new in
        (check_of i before ≡ ended_of result after) × (result ≡ checked_of (check_of i before)) }
{
    refuse::refuse(
        script,
        image,
        text,
        library,
        &slots[..],
        &functions[..],
        &types[..],
        &diagnostics[..],
        &messages[..],
        &scratch[..],
    )?;
    let inputs = Inputs {
        script,
        image,
        library_text: text,
        library,
    };
    check_accepted(
        slots,
        functions,
        types,
        diagnostics,
        messages,
        scratch,
        &inputs,
    )
}
