// Refusal 6: "slots below V + 1, or functions below the sum of 3 + 2 × arguments over all Fn nodes".
#![tactic(auto)]

ghost use Rattle.std.specs.Prelude.{◌≡◌};
ghost use Rattle.reader.specs.Reading.{offending};
ghost use Rattle.ast.specs.Image.{node_count, slot_count};
ghost use Rattle.ast.specs.Room.{entry_words, room_fault};
ghost use Rattle.image_laws.specs.OutlineAt.{outline_from, outlines_from};

use ast::NodeKind;
use reader::Fault;
use tok::word_at;

// How many words of the functions buffer the node at a place takes.
#[tactic(auto, using(crate::proofs::Ways::fn_words, crate::proofs::Ways::other_words))]
fn entry_words(words: &[u32], at: usize) -> usize
    ensures { result ≡ entry_words (outline_from words.now at) }
{
    match NodeKind::of(word_at(words, at)) {
        NodeKind::Fn => 3 + 2 * node_parts::arguments(words, at) as usize,
        _ => 0,
    }
}

// Whether buffers of these lengths have room for an image's slots and functions.
pub fn room(words: &[u32], slots: usize, functions: usize) -> Result<(), Fault>
    ensures { offending result ≡ room_fault slots functions (slot_count words.now) (outlines_from words.now 0 (node_count words.now)) }
{
    if slots <= ast::slot_count(words) as usize {
        return Err(Fault(0));
    }
    let n = ast::node_count(words) as usize;
    let mut at = 4 + ast::root_count(words) as usize;
    let mut left = functions;
    for _ in 0..n {
        left = left.checked_sub(entry_words(words, at)).ok_or(Fault(0))?;
        at = node_parts::after(words, at);
    }
    Ok(())
}
