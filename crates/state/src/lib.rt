// What the walk carries beside the lent buffers, and what its steps answer.
#![tactic(auto)]

ghost use Rattle.std.specs.Prelude.{◌≡◌};
ghost use Rattle.state.specs.Adding.{added_of};
ghost use Rattle.state.specs.Reporting.{told_of};
ghost use Rattle.state.specs.Refused.{refusal_of};

use add::{AddError, Added};
use err::Counts;

// In scratch the packages held stand below this word.
pub const HELD_TOP: usize = 8192;

// Words below are those of library packages, in the list of what is held; an Extern's has this much more than its size.
pub const EXTERN: usize = 8192;

// What is used of what later requests add: nothing yet.
#[derive(Clone, Copy)]
pub struct Kept {}

// How much of the types, of the diagnostics and of their messages is used.
#[derive(Clone, Copy)]
pub struct Used {
    pub types: usize,
    pub told: Counts,
    pub kept: Kept,
}

// Why the walk gives no answer, and the node whose rule ran: "types buffer full", "type depth 33", "diagnostics or messages full".
#[derive(Clone, Copy, Debug, PartialEq, Eq)]
pub enum Refusal {
    TypesFull(u32),
    TooDeep(u32),
    ReportsFull(u32),
}

// What a step gives, and what is used then; or a refusal, after which no step is taken.
pub type Step<A> = Result<(A, Used), Refusal>;

impl Refusal {
    // Its number in document 01's table.
    #[tactic(auto, unfolding(crate::specs::Refused::refusal_of))]
    pub fn number(self) -> u32
        ensures { result ≡ (refusal_of self).number }
    {
        match self {
            Refusal::TypesFull(_) => 7,
            Refusal::TooDeep(_) => 8,
            Refusal::ReportsFull(_) => 9,
        }
    }

    // "node whose rule runs"
    #[tactic(auto, unfolding(crate::specs::Refused::refusal_of))]
    pub fn place(self) -> u32
        ensures { result ≡ (refusal_of self).place }
    {
        match self {
            Refusal::TypesFull(n) | Refusal::TooDeep(n) | Refusal::ReportsFull(n) => n,
        }
    }
}

// What a step of node n gives after a diagnostic is written.
#[tactic(auto, unfolding(crate::specs::Reporting::told_of))]
pub fn told<A: Copy>(n: u32, used: Used, reported: Option<Counts>, answer: A) -> Step<A>
    ensures { result ≡ told_of n used reported answer }
{
    let told = reported.ok_or(Refusal::ReportsFull(n))?;
    Ok((answer, Used { told, ..used }))
}

// What a step of node n gives after a type is added: the type's word.
#[tactic(auto, unfolding(crate::specs::Adding::added_of))]
pub fn added(n: u32, used: Used, added: Added) -> Step<u32>
    ensures { result ≡ added_of n used added }
{
    match added {
        Ok((word, types)) => Ok((word, Used { types, ..used })),
        Err(AddError::Full) => Err(Refusal::TypesFull(n)),
        Err(AddError::TooDeep) => Err(Refusal::TooDeep(n)),
    }
}
