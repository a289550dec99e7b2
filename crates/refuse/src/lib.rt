// "Numbers 1 to 6 are tried in that order before the walk." No lent buffer is written.
#![tactic(auto)]

ghost use Rattle.std.specs.Prelude.{◌≡◌, List, ℕ, length};
ghost use Rattle.std.proofs.Math.Option.{none};
ghost use Rattle.tok.specs.Text.{texts_of};
ghost use Rattle.ast.specs.ImageFault.{image_read};
ghost use Rattle.refusals.specs.Inputs.{Inputs, Buffers};
ghost use Rattle.refusals.specs.Refusals.{or_else, refusal_of_image, refusal_of};
ghost use Rattle.claims.specs.Marks.{claims_in};
ghost use Rattle.depth.specs.Depths.{depth_in};
ghost use Rattle.refuse.specs.Answer.{refusal_in, room_in, inputs_of, buffers_of};

use std::marker::Model;
use tok::Texts;

// What is checked: the script text and its image, the library text and the library's words.
#[derive(Drop)]
pub struct Inputs<'a> {
    pub script: &'a [u8],
    pub image: &'a [u32],
    pub library_text: &'a [u8],
    pub library: &'a [u32],
}

impl<'a> Model for Inputs<'a> {
    ghost Value = { Inputs };

    ghost view = { λ i. inputs_of i.script.now i.image.now i.library_text.now i.library.now };
}

// The first cause of document 01's table that is found before the walk, with its place.
#[derive(Clone, Copy, Debug, PartialEq, Eq)]
pub enum Cause {
    Scratch,
    Library(usize),
    Image(usize),
    Claims(usize),
    Depth(usize),
    Room,
}

// "scratch below 16,384 words"
const SCRATCH_WORDS: usize = 16384;

// Refusals 1 to 6; `text` is the library text. Of the lent buffers only the lengths matter. What it keeps on the stack, some 50 KB, is to be given back before
// the walk begins, so that it may not stand in its caller's frame.
#[inline(never)]
pub fn refuse<'a>(
    script: &'a [u8],
    image: &[u32],
    text: &'a [u8],
    library: &[u32],
    slots: &[u32],
    functions: &[u32],
    types: &[u32],
    diagnostics: &[u32],
    messages: &[u8],
    scratch: &[u32],
) -> Result<(), Cause>
    ensures { let before : Buffers = buffers_of slots.now functions.now types.now diagnostics.now messages.now scratch.now in
        let i : Inputs = inputs_of script.now image.now text.now library.now in
        refusal_in result ≡ refusal_of i before }
{
    if scratch.len() < SCRATCH_WORDS {
        return Err(Cause::Scratch);
    }
    let texts = Texts {
        script,
        library: text,
    };
    library_read::library_fault(&texts, library).map_err(|fault| Cause::Library(fault.0))?;
    image::read(script, image).map_err(|fault| Cause::Image(fault.0))?;
    claims::claims(image).map_err(|fault| Cause::Claims(fault.0))?;
    depth::depth(image).map_err(|fault| Cause::Depth(fault.0))?;
    room::room(image, slots.len(), functions.len()).or(Err(Cause::Room))
}
