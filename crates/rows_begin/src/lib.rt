// What the rows are printed from (document 01, "Bench rows"): the first of them and the counts, from what the check answered.
#![tactic(auto)]

ghost use Rattle.std.specs.Prelude.{◌≡◌};
ghost use Rattle.rows_begin.specs.Beginning.{alone, narrowed, begun_of};

use ending::Checked;
use rows_part::Row;

// What the rows are printed from beside the buffers: the first of them, if there is one, V, and how many function words, type words, diagnostics
// and message bytes are used.
#[derive(Clone, Copy)]
pub struct Begun {
    pub first: Option<Row>,
    pub last: u32,
    pub words: u32,
    pub types: usize,
    pub count: u32,
    pub bytes: usize,
}

// A row alone, of no answer; or none.
pub fn row_alone(first: Option<Row>) -> Begun
    ensures { result ≡ alone first }
{
    Begun {
        first,
        last: 0,
        words: 0,
        types: 0,
        count: 0,
        bytes: 0,
    }
}

// A count as a word: the counts of an answer are smaller than the largest.
fn narrow(n: usize) -> u32
    ensures { result ≡ narrowed n }
{
    u32::try_from(n).unwrap_or(u32::MAX)
}

// The rows of what the check answered, of an image with so many slots.
#[tactic(auto, unfolding(crate::specs::Beginning::begun_of))]
pub fn rows_of(checked: Checked, slots: u32) -> Begun
    ensures { result ≡ begun_of slots checked }
{
    match checked {
        Ok(counts) => Begun {
            first: Some(Row::Slot(0)),
            last: slots,
            words: narrow(counts.function_words),
            types: counts.type_words,
            count: narrow(counts.diagnostics),
            bytes: counts.message_bytes,
        },
        Err(refused) => Begun {
            last: slots,
            ..row_alone(Some(Row::Refused(refused.number, refused.place)))
        },
    }
}
