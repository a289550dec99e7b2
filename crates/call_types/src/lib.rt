// The types of a call's arguments, once they are visited: the words of their slots, gathered into a lent part of scratch.
#![tactic(auto)]

ghost use Rattle.std.specs.Prelude.{◌≡◌, take};
ghost use Rattle.call_args.specs.Given.{given_from};
ghost use Rattle.call_types.specs.Gather.{words_in, Gatherable};

use call_args::Call;
use places::Image;

// The type words of a call's arguments.
pub fn gather_types(provided: &mut [u32], slots: &[u32], image: &Image, call: Call)
    requires { Gatherable image.now.words image.now.places call.args call.count provided.old }
    ensures { take call.count provided.new ≡ words_in slots.now (given_from image.now.words call.args call.count) }
{
    let words = &mut provided[..call.count];
    for (i, word) in words.iter_mut().enumerate() {
        let number = image.word_at(call.args + i);
        let slot = call_args::slot_of(image, number);
        *word = tok::word_at(slots, slot as usize);
    }
}
