// The check as a static library's one function (bindings/shelfstork.h): the contract is `checker::check`'s own.
#![tactic(auto)]

ghost use Rattle.std.specs.Prelude.{◌≡◌};
ghost use Rattle.refusals.specs.Inputs.{Inputs, Buffers};
ghost use Rattle.refuse.specs.Answer.{inputs_of, buffers_of};
ghost use Rattle.shelfstork.specs.Told.{Tells};

// Typechecker::check, of whatever is given; `text` is the library text.
#[unsafe(no_mangle)]
pub extern "C" fn shelfstork_check<'a>(
    script: &'a [u8],
    image: &[u32],
    text: &'a [u8],
    library: &[u32],
    slots: &mut [u32],
    functions: &mut [u32],
    types: &mut [u32],
    diagnostics: &mut [u32],
    messages: &mut [u8],
    scratch: &mut [u32],
    answer: &mut [u64; 6],
)
    ensures { let before : Buffers = buffers_of slots.old functions.old types.old diagnostics.old messages.old scratch.old in
        let after : Buffers = buffers_of slots.new functions.new types.new diagnostics.new messages.new scratch.new in
        let i : Inputs = inputs_of script.now image.now text.now library.now in
        Tells i before after answer.new }
{
    let checked = checker::check(
        script,
        image,
        text,
        library,
        slots,
        functions,
        types,
        diagnostics,
        messages,
        scratch,
    );
    *answer = ending::numbers(checked);
}
