// From the printing program's input to its rows (document 01, "Bench rows"): the four parts are read, the check runs on them, the rows are printed.
#![tactic(auto)]

ghost use Rattle.std.specs.Prelude.{◌≡◌, IfOk};
ghost use Rattle.refusals.specs.Inputs.{Inputs, Buffers};
ghost use Rattle.refuse.specs.Answer.{inputs_of, buffers_of};
ghost use Rattle.rows_begin.specs.Beginning.{Runs, Begins};
ghost use Rattle.printing.specs.Handed.{Benched};

use ptype::Types;
use rows_begin::Begun;
use rows_part::{Answer, Row};
use std::io;
use tok::Texts;

// How long the list of an input's words can be: "in all up to 65,536 bytes".
const MOST_WORDS: usize = 16_384;

// The check of the four parts, and its rows. "It lends each buffer as long as can be used."
fn run<'a>(
    script: &'a [u8],
    image: &[u32],
    text: &'a [u8],
    library: &[u32],
    slots: &mut [u32; 4_097],
    functions: &mut [u32; 8_192],
    types: &mut [u32; 8_192],
    diagnostics: &mut [u32; 1_536],
    messages: &mut [u8; 65_536],
    scratch: &mut [u32; 16_384],
) -> Begun
    ensures { let before : Buffers = buffers_of slots.old functions.old types.old diagnostics.old messages.old scratch.old in
        let after : Buffers = buffers_of slots.new functions.new types.new diagnostics.new messages.new scratch.new in
        let i : Inputs = inputs_of script.now image.now text.now library.now in
        Runs i before after result }
{
    let checked = checker::check(
        script,
        image,
        text,
        library,
        slots,
        functions,
        types,
        diagnostics,
        messages,
        scratch,
    );
    rows_begin::rows_of(checked, ast::slot_count(image))
}

// The rows of an input: `input` where the lengths do not fit, else those of what the check of the four parts ends in.
fn begin(
    bytes: &[u8],
    slots: &mut [u32; 4_097],
    functions: &mut [u32; 8_192],
    types: &mut [u32; 8_192],
    diagnostics: &mut [u32; 1_536],
    messages: &mut [u8; 65_536],
    scratch: &mut [u32; 16_384],
) -> Begun
    ensures { let before : Buffers = buffers_of slots.old functions.old types.old diagnostics.old messages.old scratch.old in
        let after : Buffers = buffers_of slots.new functions.new types.new diagnostics.new messages.new scratch.new in
        Begins bytes.now before after result }
{
    if !rows_input::fits(bytes) {
        return rows_begin::row_alone(Some(Row::Input));
    }
    let mut image = [0u32; MOST_WORDS];
    let mut library = [0u32; MOST_WORDS];
    rows_input::image(&mut image, bytes);
    rows_input::library(&mut library, bytes);
    let image_length = rows_input::image_length(bytes);
    let library_length = rows_input::library_length(bytes);
    run(
        rows_input::script(bytes),
        slices::front(&image, image_length),
        rows_input::library_text(bytes),
        slices::front(&library, library_length),
        slots,
        functions,
        types,
        diagnostics,
        messages,
        scratch,
    )
}

// The printing program: the check of the input's parts, and its rows. It answers how many bytes it handed to the system, or none where a
// row was left off; whether they are written, the system's contract leaves open.
pub fn bench(rt: &impl Print, bytes: &[u8], full: bool) -> io::Result<Option<usize>>
    ensures { IfOk result (λ printed. Benched bytes.now printed) }
{
    let mut slots = [0u32; 4_097];
    let mut functions = [0u32; 8_192];
    let mut types = [0u32; 8_192];
    let mut diagnostics = [0u32; 1_536];
    let mut messages = [0u8; 65_536];
    let mut scratch = [0u32; 16_384];
    let begun = begin(
        bytes,
        &mut slots,
        &mut functions,
        &mut types,
        &mut diagnostics,
        &mut messages,
        &mut scratch,
    );
    let texts = Texts {
        script: rows_input::script(bytes),
        library: rows_input::library_text(bytes),
    };
    let answer = Answer {
        types: &Types {
            words: &types,
            texts: &texts,
        },
        slots: &slots,
        functions: &functions,
        diagnostics: &diagnostics,
        messages: &messages,
        last: begun.last,
        words: begun.words,
        count: begun.count,
    };
    printing::print_rows(rt, &answer, begun, full)
}
