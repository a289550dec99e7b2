// Lent buffers set to zero (document 01: "all outputs and scratch zero to their ends", "Scratch is all zero").
#![tactic(auto)]

ghost use Rattle.std.specs.Prelude.{◌≡◌};
ghost use Rattle.rules.specs.Check.{zeroed};
ghost use Rattle.refusals.specs.Inputs.{Buffers};
ghost use Rattle.refuse.specs.Answer.{buffers_of};
ghost use Rattle.zero.specs.Zero.{zero_first};

// The first n words are zero, as far as the buffer goes.
pub fn zero_first(words: &mut [u32], n: usize)
    ensures { words.new ≡ zero_first n words.old }
{
    let end = n.min(words.len());
    words[..end].fill(0);
}

// All six buffers are zero, as after refusals 7 to 9.
pub fn zero_all(
    slots: &mut [u32],
    functions: &mut [u32],
    types: &mut [u32],
    diagnostics: &mut [u32],
    messages: &mut [u8],
    scratch: &mut [u32],
)
    ensures { let before : Buffers = buffers_of slots.old functions.old types.old diagnostics.old messages.old scratch.old in
        buffers_of slots.new functions.new types.new diagnostics.new messages.new scratch.new ≡ zeroed before }
{
    slots.fill(0);
    functions.fill(0);
    types.fill(0);
    diagnostics.fill(0);
    messages.fill(0);
    scratch.fill(0);
}
