// Typechecker::check_call_args, of a function with slots: argument count, each argument, the return type with its slots applied. The bindings
// stand in a lent part of scratch. The buffers are lent in one order: slots, types, diagnostics, messages, the bindings or their pairs; then the
// texts and the image.
#![tactic(auto)]

ghost use Rattle.std.specs.Prelude.{List, ℕ};
ghost use Rattle.err.specs.Message.{call_name};
ghost use Rattle.library.specs.Package.{Package};
ghost use Rattle.rules.specs.Calls.{Provided, check_call_args};
ghost use Rattle.signatures.specs.Groups.{as_slotted};
ghost use Rattle.state.specs.Context.{ctx};
ghost use Rattle.state.specs.World.{Steps};
ghost use Rattle.slots.specs.Bindings.{bound_slots};
ghost use Rattle.slotted.specs.Meant.{Meant};
ghost use Rattle.call_args.specs.Given.{given_from};
ghost use Rattle.slotted_call.specs.Bindable.{SlottedReady, Counted, Arguments, known_return};

use call_args::{Call, Callee};
use err::CallName;
use places::Image;
use rules::Answer;
use signatures::Signature;
use slots::{Bindings, BoundSlots};
use state::{Step, Used};
use tok::Texts;

// Each argument, in order.
fn slotted_arguments(
    slots: &[u32],
    types: &mut [u32],
    diagnostics: &mut [u32],
    messages: &mut [u8],
    bindings: &mut Bindings,
    texts: &Texts,
    image: &Image,
    used: Used,
    call: Call,
    callee: CallName,
    signature: &Signature,
) -> Step<()>
    requires { Counted texts.now image.now.words image.now.places call.n call.args call.count slots.now types.old used.types signature.now bindings.old }
    ensures { Arguments texts.now call.n (call_name texts.now callee) signature.now.params image.now.words call.args call.count slots.now types.old
        diagnostics.old messages.old used bindings.old types.new diagnostics.new messages.new bindings.new result }
{
    let mut used = used;
    for i in 0..call.count {
        let arg = call_args::argument_of(image, call, signature, i);
        let (_, after) = slotted::slotted_argument(
            slots,
            types,
            diagnostics,
            messages,
            bindings,
            texts,
            used,
            call.n,
            callee,
            arg,
        )?;
        used = after;
    }
    Ok(((), used))
}

// The return type, with its slots applied.
fn returned(
    slots: &mut [u32],
    types: &mut [u32],
    bindings: &BoundSlots,
    texts: &Texts,
    used: Used,
    call: Call,
    ret: u32,
) -> Step<Answer>
    requires { Meant texts.now types.old used.types ret }
    ensures { (d m : List ℕ) → Steps (known_return texts.now call.n call.slot ret (bound_slots texts.now bindings.now) types.old) slots.old types.old d m used slots.new
        types.new d m result }
{
    let added = apply::apply_slot_binding(types, used.types, texts, bindings, ret);
    let (word, used) = state::added(call.n, used, added)?;
    operators::set_known(slots, used, call.slot, word)
}

// Typechecker::check_call_args, of a function with slots. Another number of arguments is 19, and the call is poisoned.
pub fn check_slotted(
    slots: &mut [u32],
    types: &mut [u32],
    diagnostics: &mut [u32],
    messages: &mut [u8],
    pairs: &mut [u32],
    texts: &Texts,
    image: &Image,
    used: Used,
    call: Call,
    callee: Callee,
    signature: &Signature,
) -> Step<Answer>
    requires { SlottedReady texts.now image.now.words image.now.places call.n call.args call.count slots.old types.old used.types signature.now
        pairs.old }
    ensures { ((ls : List Package) (v : ℕ) →
        let given : List Provided = given_from image.now.words call.args call.count in
        let name : List ℕ = call_name texts.now callee.name in
        Steps (check_call_args (ctx texts.now ls v) call.n call.slot callee.token name (as_slotted signature.now) given) slots.old types.old
        diagnostics.old messages.old used slots.new types.new diagnostics.new messages.new result) }
{
    let required = signature.argument_count();
    if call.count != required {
        let (_, used) = call_args::report_count(
            diagnostics,
            messages,
            texts,
            used,
            call,
            callee,
            required,
        )?;
        return Ok((Answer::Poison, used));
    }
    let mut bindings = Bindings::new(pairs);
    let (_, used) = slotted_arguments(
        &slots[..],
        types,
        diagnostics,
        messages,
        &mut bindings,
        texts,
        image,
        used,
        call,
        callee.name,
        signature,
    )?;
    let ret = signature.return_type();
    let held = bindings.bound();
    returned(slots, types, &held, texts, used, call, ret)
}
