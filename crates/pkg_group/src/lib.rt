// The candidates of a package's group, after the call's arguments are visited (typecheck/lib.rs, `resolve_pkg_call`).
// The buffers are lent in one order: slots, types (with the texts), diagnostics, messages; then the image.
#![tactic(auto)]

ghost use Rattle.std.specs.Prelude.{◌≡◌, true, false, List};
ghost use Rattle.rules.specs.Calls.{Provided};
ghost use Rattle.signatures.specs.Groups.{as_plain, as_slotted};
ghost use Rattle.call_args.specs.Given.{given_from};
ghost use Rattle.pkg_group.specs.GroupSize.{group_size, signature_of, size_found};
ghost use Rattle.pkg_group.specs.Groups.{GroupReady, InGroup};

use call_args::PackageCall;
use places::Image;
use ptype::Types;
use rules::Answer;
use signatures::{Group, Signature};
use state::{Step, Used};

// The one candidate of a name, by the words in which it stands and the place of its argument count.
#[derive(Clone, Copy)]
pub struct Candidate<'a> {
    pub words: &'a [u32],
    pub at: usize,
}

impl<'a> Candidate<'a> {
    // Where a signature stands, whether it has slots or not.
    #[tactic(auto, unfolding(library::specs::Signatures::signature_at))]
    fn of(signature: &Signature<'a>) -> Candidate<'a>
        ensures plain { signature_of result false ≡ as_plain signature.now }
        ensures slotted { signature_of result true ≡ as_slotted signature.now }
    {
        Candidate {
            words: signature.words,
            at: signature.at,
        }
    }

    // Its signature, with slots or without them.
    pub fn signature(&self, slotted: bool) -> Signature<'a>
        ensures { result ≡ signature_of self.now slotted }
    {
        Signature {
            words: self.words,
            at: self.at,
            slotted,
        }
    }
}

// The candidates of a name: none, one without slots or with them, or several.
#[derive(Clone, Copy)]
pub enum Candidates<'a> {
    Nothing,
    Plain(Candidate<'a>),
    Slotted(Candidate<'a>),
    Several,
}

// How many there are, and the one.
pub fn find_candidates<'a>(group: &Group<'a>) -> Candidates<'a>
    ensures { group_size group.now ≡ size_found result }
{
    let mut candidates = group.iter();
    let Some(first) = candidates.next() else {
        return Candidates::Nothing;
    };
    let None = candidates.next() else {
        return Candidates::Several;
    };
    let candidate = Candidate::of(&first);
    if first.has_slots() {
        return Candidates::Slotted(candidate);
    }
    Candidates::Plain(candidate)
}

// A call of the candidates of a name among the entries of a package, but for one with slots, which wants room for its bindings: none is 16,
// one is checked by itself, several are selected from.
pub fn in_group(
    slots: &mut [u32],
    types: &Types,
    diagnostics: &mut [u32],
    messages: &mut [u8],
    provided: &[u32],
    image: &Image,
    used: Used,
    call: PackageCall,
    group: &Group,
    found: Candidates,
) -> Step<Answer>
    requires { GroupReady image.now.words image.now.places call.site.n call.site.args call.site.count slots.old provided.now group.now found }
    ensures { let given : List Provided = given_from image.now.words call.site.args call.site.count in
        InGroup types.now.texts.now call.site.n call.site.slot call.pkg call.name given call.poisoned group.now slots.old types.now.words.now diagnostics.old messages.old used
        slots.new types.now.words.now diagnostics.new messages.new result }
{
    match found {
        Candidates::Nothing => {
            let r = err_calls::undefined_in_package(
                diagnostics,
                messages,
                used.told,
                types.texts,
                call.pkg,
                call.name,
            );
            state::told(call.site.n, used, r, Answer::Poison)
        }
        Candidates::Plain(candidate) => call_args::check_plain(
            slots,
            types,
            diagnostics,
            messages,
            image,
            used,
            call.site,
            call.callee(),
            &candidate.signature(false),
        ),
        // it is checked by itself, with its bindings
        Candidates::Slotted(_) => unreachable!(),
        Candidates::Several => group_select::select(
            slots,
            types,
            diagnostics,
            messages,
            provided,
            used,
            call.site,
            call.callee(),
            call.poisoned,
            group,
        ),
    }
}
