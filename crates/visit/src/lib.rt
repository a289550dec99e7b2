// What the walk carries from node to node beside the lent buffers, and what visiting a node answers.
#![tactic(auto)]

ghost use Rattle.std.specs.Prelude.{◌≡◌};
ghost use Rattle.visit.specs.Plain.{visit_of};

use places::Image;
use scope::Names;
use state::{Refusal, Step, Used};
use tok::Texts;

// What the walk reads: the texts, the script's image with the places of its records, and the library's words.
#[derive(Drop)]
pub struct Sources<'a> {
    pub texts: &'a Texts<'a>,
    pub image: &'a Image<'a>,
    pub library: &'a [u32],
}

// How much of each buffer is used, and what scratch holds: the names in scope, and the packages held, which are `packages` from word `held`
// on; the functions buffer has `functions` entries.
#[derive(Clone, Copy)]
pub struct State {
    pub used: Used,
    pub names: Names,
    pub held: usize,
    pub packages: usize,
    pub functions: usize,
}

// What visiting a node gives, and the state then; or a refusal, which ends the walk.
pub type Visit<A> = Result<(A, State), Refusal>;

// What a plain step gives, which leaves names in scope, packages held and own functions as they are.
#[tactic(auto, unfolding(crate::specs::Plain::visit_of))]
pub fn answered<A: Copy>(st: State, step: Step<A>) -> Visit<A>
    ensures { result ≡ visit_of st step }
{
    let (answer, used) = step?;
    Ok((answer, State { used, ..st }))
}
