// Words of an image's records, read forward: names, numbers below others, lists of them, and the length that pairs have (document 01, "Words").
#![tactic(auto)]

ghost use Rattle.std.specs.Prelude.{◌≡◌, ◌&&◌, ◌-◌, ◌%◌, leb, eqb};
ghost use Rattle.utf8.specs.Rfc3629.{range};
ghost use Rattle.tok.specs.Name.{good_name, in_script};
ghost use Rattle.tok.specs.Reader.{word, below, many};
ghost use Rattle.reader.specs.Reading.{next_word, Comes};
ghost use Rattle.image_laws.proofs.RecordLaws.{pair_rule};
ghost use Rattle.image_words.specs.Leads.{Leads};

use reader::{Fault, Reader};
use tok::Source;

// Numbers.

// Whether a number lies from `low` to `high`.
pub fn between(low: usize, high: usize, n: usize) -> bool
    ensures { result ≡ range low high n }
{
    (low..=high).contains(&n)
}

// Whether a length is `least`, or that and pairs more.
pub fn and_pairs(least: usize, long: usize) -> bool
    ensures { result ≡ (leb least long && eqb ((long - least) % 2) 0) }
{
    long >= least && (long - least) % 2 == 0
}

// One word, and lists.

// A name or token of the script text: a word that is `good_token` there, by `good_token-name`.
pub fn token<'a>(script: &[u8], from: Reader<'a>) -> Result<Reader<'a>, Fault>
    ensures { Comes from.entry (word (good_name in_script script.now)) (next_word from.entry) result }
{
    from.name(Source::Script, script)
}

// n numbers below `most`.
pub fn numbers(from: Reader, n: usize, most: usize) -> Result<Reader, Fault>
    ensures { Leads from.entry (many n (below most)) result }
{
    from.many(n, |to, _| to.below(most))
}

// A name and a number below `most`.
#[tactic(auto, unfolding(reader::specs::Reading::gave, crate::specs::Leads::unanswered), using(crate::specs::LeadLaws::leads))]
fn pair<'a>(script: &[u8], from: Reader<'a>, most: usize) -> Result<Reader<'a>, Fault>
    ensures { Leads from.entry (pair_rule script.now most) result }
{
    token(script, from)?.below(most)
}

// n such pairs.
pub fn pairs<'a>(
    script: &[u8],
    from: Reader<'a>,
    n: usize,
    most: usize,
) -> Result<Reader<'a>, Fault>
    ensures { Leads from.entry (many n (pair_rule script.now most)) result }
{
    from.many(n, |to, _| pair(script, to, most))
}

// n names.
pub fn names<'a>(script: &[u8], from: Reader<'a>, n: usize) -> Result<Reader<'a>, Fault>
    ensures { Leads from.entry (many n (word (good_name in_script script.now))) result }
{
    from.many(n, |to, _| token(script, to))
}
