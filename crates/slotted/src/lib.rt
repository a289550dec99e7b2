// One argument of a call of a function with slots (typecheck/lib.rs, `check_call_args`, the body of its loop; ptype.rs). The buffers are lent in
// one order: slots, types, diagnostics, messages; then the bindings and the texts.
#![tactic(auto)]

ghost use Rattle.std.specs.Prelude.{◌≡◌, true, Ok};
ghost use Rattle.err.specs.Message.{call_name};
ghost use Rattle.library.specs.Package.{param};
ghost use Rattle.rules.specs.Calls.{argument};
ghost use Rattle.arguments.specs.Argument.{given};
ghost use Rattle.slots.specs.Bindings.{bound_slots};
ghost use Rattle.slotted.specs.Argues.{AfterBinding, Argues};
ghost use Rattle.slotted.specs.Meant.{Meant, ArgumentMeant};

use arguments::Argument;
use err::CallName;
use ptype::Types;
use slots::{Bind, BindError, Bindings, BoundSlots};
use state::{Refusal, Step, Used};
use tok::Texts;

// The argument bound without an error: the expected type with its slots applied is compared.
fn applied(
    types: &mut [u32],
    diagnostics: &mut [u32],
    messages: &mut [u8],
    bindings: &BoundSlots,
    texts: &Texts,
    used: Used,
    n: u32,
    callee: CallName,
    arg: Argument,
    provided: u32,
) -> Step<()>
    requires { Meant texts.now types.old used.types arg.expected × Meant texts.now types.old used.types provided }
    ensures { AfterBinding texts.now n (call_name texts.now callee) arg.name arg.expected arg.span provided types.old diagnostics.old messages.old used
        (bound_slots texts.now bindings.now) (Ok tt) types.new diagnostics.new messages.new result }
{
    let added = apply::apply_slot_binding(types, used.types, texts, bindings, arg.expected);
    let (word, used) = state::added(n, used, added)?;
    let types = Types {
        words: &types[..],
        texts: &*texts,
    };
    arguments::compared(
        &types,
        diagnostics,
        messages,
        used,
        n,
        callee,
        Argument {
            expected: word,
            ..arg
        },
        provided,
    )
}

// What a binding leads to: an error is reported, 21 or 22, and the argument left; else the types are compared.
fn after_binding(
    types: &mut [u32],
    diagnostics: &mut [u32],
    messages: &mut [u8],
    bindings: &BoundSlots,
    texts: &Texts,
    used: Used,
    bound: Bind,
    n: u32,
    callee: CallName,
    arg: Argument,
    provided: u32,
) -> Step<()>
    requires { Meant texts.now types.old used.types arg.expected × Meant texts.now types.old used.types provided }
    ensures { AfterBinding texts.now n (call_name texts.now callee) arg.name arg.expected arg.span provided types.old diagnostics.old messages.old used
        (bound_slots texts.now bindings.now) bound types.new diagnostics.new messages.new result }
{
    match bound {
        Ok(()) => applied(
            types,
            diagnostics,
            messages,
            bindings,
            texts,
            used,
            n,
            callee,
            arg,
            provided,
        ),
        Err(error) => match error {
            BindError::Conflict {
                slot,
                existing,
                new,
            } => {
                let types = Types {
                    words: &types[..],
                    texts: &*texts,
                };
                let reported = err_arguments::slot_conflict(
                    diagnostics,
                    messages,
                    used.told,
                    &types,
                    arg.span,
                    callee,
                    slot,
                    existing,
                    new,
                );
                state::told(n, used, reported, ())
            }
            BindError::Void { slot } => {
                let reported = err_arguments::slot_void(
                    diagnostics,
                    messages,
                    used.told,
                    texts,
                    arg.span,
                    callee,
                    slot,
                );
                state::told(n, used, reported, ())
            }
            // There is room for all bindings of an argument (`ArgumentMeant`), so that no call comes here.
            BindError::NoRoom => Err(Refusal::TypesFull(n)),
        },
    }
}

// An argument of a function with slots. One that contains a Slot is passed over.
pub fn slotted_argument(
    slots: &[u32],
    types: &mut [u32],
    diagnostics: &mut [u32],
    messages: &mut [u8],
    bindings: &mut Bindings,
    texts: &Texts,
    used: Used,
    n: u32,
    callee: CallName,
    arg: Argument,
) -> Step<()>
    requires { ArgumentMeant texts.now slots.now types.old used.types arg.expected arg.slot bindings.old }
    ensures { Argues texts.now (λ c. argument c n (call_name texts.now callee) true (param arg.name arg.expected) (given arg.slot arg.span)) slots.now
        types.old diagnostics.old messages.old used bindings.old types.new diagnostics.new messages.new bindings.new result }
{
    let w = tok::word_at(slots, arg.slot as usize);
    if arguments::is_unchecked(&types[..], w) {
        return Ok(((), used));
    }
    if ptype::contains_slot(&types[..], w) {
        return Ok(((), used));
    }
    let read = Types {
        words: &types[..],
        texts: &*texts,
    };
    let bound = slots::bind_slots(bindings, &read, arg.expected, w);
    let held = bindings.bound();
    after_binding(
        types,
        diagnostics,
        messages,
        &held,
        texts,
        used,
        bound,
        n,
        callee,
        arg,
        w,
    )
}
