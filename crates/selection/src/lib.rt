// A package group of several (typecheck/lib.rs, `resolve_pkg_call`; err.rs, `common_return`): the first candidate whose every argument type is
// equal, and what all candidates return.
#![tactic(auto)]

ghost use Rattle.std.specs.Prelude.{◌≡◌, map, ℕ};
ghost use Rattle.ptype.specs.Ty.{Ty};
ghost use Rattle.ptype.specs.Types.{type_at};
ghost use Rattle.selection.specs.Candidates.{position_of, all_return_of, CommonReturn};

use ptype::Types;
use rules::Answer;
use signatures::{Group, Signature};
use state::{Step, Used};

// The first candidate whose every argument type is equal to the provided one, counts alike.
pub fn position<'a>(types: &Types, group: &Group<'a>, provided: &[u32]) -> Option<Signature<'a>>
    ensures { let U : ℕ → Ty = type_at types.now in result ≡ position_of U (map U provided.now) group.now }
{
    'candidates: for candidate in group.iter() {
        if candidate.argument_count() != provided.len() {
            continue 'candidates;
        }
        for (i, &word) in provided.iter().enumerate() {
            let expected = candidate.argument_type(i);
            if !ptype::same_type(types, expected, word) {
                continue 'candidates;
            }
        }
        return Some(candidate);
    }
    None
}

// What all candidates return, else Poison.
pub fn common_return(
    slots: &mut [u32],
    types: &Types,
    used: Used,
    slot: u32,
    group: &Group,
) -> Step<Answer>
    ensures { CommonReturn types.now.texts.now slot group.now slots.old types.now.words.now used slots.new result }
{
    let mut others = group.iter();
    let Some(first) = others.next() else {
        return Ok((Answer::Poison, used));
    };
    let ret = first.return_type();
    if others.all(|candidate| ptype::same_type(types, candidate.return_type(), ret)) {
        return operators::set_known(slots, used, slot, ret);
    }
    Ok((Answer::Poison, used))
}
