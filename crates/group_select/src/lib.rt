// A call of a package group of several, after its arguments are visited (typecheck/lib.rs, `resolve_pkg_call`; err.rs,
// `specialisation_miss_error`). The types of the arguments are lent as words; the candidates are found one after the other, each time they
// are asked for, so that no place of theirs is kept.
#![tactic(auto)]

ghost use Rattle.std.specs.Prelude.{List, map, ℕ};
ghost use Rattle.tok.specs.Text.{Texts, text};
ghost use Rattle.ptype.specs.Types.{type_at};
ghost use Rattle.display.specs.Writing.{Writes};
ghost use Rattle.display.specs.Joined.{joined, sig};
ghost use Rattle.err.specs.Message.{call_name};
ghost use Rattle.group_select.specs.Selects.{candidate_types, NoneFits, Selects};

use call_args::{Call, Callee};
use display::{Full, Sink, Writer};
use ptype::Types;
use rules::Answer;
use signatures::Group;
use state::{Step, Used};

// Writes the candidates, joined by ` | `.
fn put_candidates(out: &mut Writer, types: &Types, group: &Group) -> Result<(), Full>
    ensures { Writes out.old out.new result (joined (text " | ") (map sig (candidate_types (type_at types.now) group.now))) }
{
    // 1 once a candidate is written
    let mut before = 0;
    for candidate in group.iter() {
        out.put_separator(before, b" | ")?;
        err_calls::put_candidate(out, types, candidate.words, candidate.at)?;
        before = 1;
    }
    out.put(b"")
}

// No candidate fits: 18, and what all return is still known.
fn none_fits(
    slots: &mut [u32],
    types: &Types,
    diagnostics: &mut [u32],
    messages: &mut [u8],
    provided: &[u32],
    used: Used,
    call: Call,
    callee: Callee,
    group: &Group,
) -> Step<Answer>
    ensures { let T : Texts = types.now.texts.now in
        NoneFits T call.n call.slot callee.token (call_name T callee.name) (map (type_at types.now) provided.now) group.now
        slots.old types.now.words.now diagnostics.old messages.old used slots.new diagnostics.new messages.new result }
{
    let r = err_calls::no_specialisation(
        diagnostics,
        messages,
        used.told,
        types,
        callee.token,
        callee.name,
        provided,
        |out: &mut Writer| put_candidates(out, types, group),
    );
    let (_, used) = state::told(call.n, used, r, ())?;
    selection::common_return(slots, types, used, call.slot, group)
}

// A group of several: the first that fits; where an argument is poisoned, or none fits, what all return.
pub fn select(
    slots: &mut [u32],
    types: &Types,
    diagnostics: &mut [u32],
    messages: &mut [u8],
    provided: &[u32],
    used: Used,
    call: Call,
    callee: Callee,
    poisoned: bool,
    group: &Group,
) -> Step<Answer>
    ensures { let T : Texts = types.now.texts.now in
        Selects T call.n call.slot callee.token (call_name T callee.name) provided.now poisoned group.now
        slots.old types.now.words.now diagnostics.old messages.old used slots.new diagnostics.new messages.new result }
{
    if poisoned {
        return selection::common_return(slots, types, used, call.slot, group);
    }
    let Some(candidate) = selection::position(types, group, provided) else {
        return none_fits(
            slots,
            types,
            diagnostics,
            messages,
            provided,
            used,
            call,
            callee,
            group,
        );
    };
    let ret = candidate.return_type();
    operators::set_known(slots, used, call.slot, ret)
}
