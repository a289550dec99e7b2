// How the check ends (document 01, "Answers that end the check"): what it answers, and what it leaves in the buffers. Nothing here visits a node.
// The buffers are lent in one order: slots, functions, types, diagnostics, messages, scratch.
#![tactic(auto)]

ghost use Rattle.std.specs.Prelude.{◌≡◌, List, ℕ};
ghost use Rattle.refusals.specs.Inputs.{Buffers};
ghost use Rattle.refuse.specs.Answer.{buffers_of};
ghost use Rattle.rules.specs.Check.{end_of};
ghost use Rattle.state.specs.World.{no_more};
ghost use Rattle.visit.specs.Whole.{Lent, lent};
ghost use Rattle.ending.specs.Numbers.{numbers_of};
ghost use Rattle.ending.specs.Ended.{EndsAs, over_of, EndsWell};

use refuse::Cause;
use rules::Answer;
use scope::Own;
use state::Refusal;
use visit::State;

// How much of the buffers an answer uses.
#[derive(Clone, Copy, Debug, PartialEq, Eq)]
pub struct AnswerCounts {
    pub function_words: usize,
    pub type_words: usize,
    pub diagnostics: usize,
    pub message_bytes: usize,
}

// A refusal, as document 01's table numbers it.
#[derive(Clone, Copy, Debug, PartialEq, Eq)]
pub struct Refused {
    pub number: u32,
    pub place: usize,
}

// What the check answers.
pub type Checked = Result<AnswerCounts, Refused>;

// What is found before the walk.
impl From<Cause> for Refused {
    ghost use Rattle.std.specs.Prelude.{◌≡◌};
    ghost use Rattle.ending.specs.Ended.{before_of};

    ghost from_gives = { λ cause r. r ≡ before_of cause };

    #[tactic(auto, unfolding(crate::specs::Ended::before_of))]
    fn from(cause: Cause) -> Refused {
        match cause {
            Cause::Scratch => Refused {
                number: 1,
                place: 0,
            },
            Cause::Library(word) => Refused {
                number: 2,
                place: word,
            },
            Cause::Image(word) => Refused {
                number: 3,
                place: word,
            },
            Cause::Claims(node) => Refused {
                number: 4,
                place: node,
            },
            Cause::Depth(node) => Refused {
                number: 5,
                place: node,
            },
            Cause::Room => Refused {
                number: 6,
                place: 0,
            },
        }
    }
}

// What is found in the walk.
impl From<Refusal> for Refused {
    ghost use Rattle.std.specs.Prelude.{◌≡◌};
    ghost use Rattle.ending.specs.Ended.{within_of};

    ghost from_gives = { λ refusal r. r ≡ within_of refusal };

    fn from(refusal: Refusal) -> Refused {
        Refused {
            number: refusal.number(),
            place: refusal.place() as usize,
        }
    }
}

// What is left in the buffers where the walk has ended: "Scratch is all zero" after an answer, all of them after a refusal. A refusal is answered
// as it is, whichever its number.
pub fn finish(
    slots: &mut [u32],
    functions: &mut [u32],
    types: &mut [u32],
    diagnostics: &mut [u32],
    messages: &mut [u8],
    scratch: &mut [u32],
    visit: Result<(Answer, State), Refused>,
) -> Checked
    requires { EndsWell functions.old visit }
    ensures { let before : Buffers = buffers_of slots.old functions.old types.old diagnostics.old messages.old scratch.old in
        let b : Lent = lent slots.old functions.old types.old diagnostics.old messages.old scratch.old no_more in
        let after : Buffers = buffers_of slots.new functions.new types.new diagnostics.new messages.new scratch.new in
        ((words : List ℕ) → EndsAs (end_of before (over_of words b visit)) after result) }
{
    match visit {
        Ok((_, st)) => {
            scratch.fill(0);
            let own = Own {
                words: &functions[..],
                count: st.functions,
            };
            Ok(AnswerCounts {
                function_words: own.end(),
                type_words: st.used.types,
                diagnostics: st.used.told.diagnostics,
                message_bytes: st.used.told.bytes,
            })
        }
        Err(refused) => {
            zero::zero_all(slots, functions, types, diagnostics, messages, scratch);
            Err(refused)
        }
    }
}

// What the check answers as six numbers: number, place, function words, type words, diagnostics, message bytes.
#[tactic(auto, unfolding(crate::specs::Numbers::numbers_of))]
pub fn numbers(checked: Checked) -> [u64; 6]
    ensures { result ≡ numbers_of checked }
{
    match checked {
        Ok(counts) => [
            0,
            0,
            counts.function_words as u64,
            counts.type_words as u64,
            counts.diagnostics as u64,
            counts.message_bytes as u64,
        ],
        Err(refused) => [refused.number as u64, refused.place as u64, 0, 0, 0, 0],
    }
}
