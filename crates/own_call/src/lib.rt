// Typechecker::resolve_call, after the arguments are visited: a call of an own function.
#![tactic(auto)]

ghost use Rattle.std.specs.Prelude.{◌≡◌};
ghost use Rattle.call_args.specs.Given.{given_from};
ghost use Rattle.own_call.specs.OwnCalls.{OwnCalls};
ghost use Rattle.spans.specs.Ready.{NodesReady};

use call_args::{Call, Callee};
use err::CallName;
use places::Image;
use ptype::Types;
use rules::Answer;
use scope::Own;
use signatures::Signature;
use state::{Step, Used};

// The newest own function of the name; without one, 17.
pub fn resolve_call(
    slots: &mut [u32],
    types: &Types,
    diagnostics: &mut [u32],
    messages: &mut [u8],
    own: &Own,
    image: &Image,
    used: Used,
    call: Call,
    name: u32,
) -> Step<Answer>
    requires { NodesReady image.now.words image.now.places call.n call.args call.count }
    ensures { OwnCalls types.now.texts.now call.n call.slot name (given_from image.now.words call.args call.count) own.now.words own.now.count slots.old types.now.words.now
        diagnostics.old messages.old used slots.new diagnostics.new messages.new result }
{
    match own.find(types.texts, name) {
        Some(at) => call_args::check_plain(
            slots,
            types,
            diagnostics,
            messages,
            image,
            used,
            call,
            Callee {
                token: name,
                name: CallName::Own(name),
            },
            &Signature {
                words: own.words,
                at,
                slotted: false,
            },
        ),
        None => {
            let reported = err_calls::undefined_own(
                diagnostics,
                messages,
                used.told,
                types.texts,
                name,
            );
            state::told(call.n, used, reported, Answer::Poison)
        }
    }
}
