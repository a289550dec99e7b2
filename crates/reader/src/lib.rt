// Reading words forward: each word is held to its field's rule, and the whole to 8,192 words.
#![tactic(auto)]

ghost use Rattle.std.specs.Prelude.{◌≡◌, ◌&&◌, ◌+◌, length, leb, ltb};
ghost use Rattle.tok.specs.Name.{good_name};
ghost use Rattle.tok.specs.Source.{bit_of};
ghost use Rattle.tok.specs.Reader.{most_words, owing, word, below, ends};
ghost use Rattle.reader.specs.Reading.{Reader, reading, beginning, next_word, Comes};
ghost use Rattle.reader.specs.Repeated.{Repeated};

use std::marker::Model;
use tok::Source;

// A reading of a list of words: it stands before word `at`, and the list has `least` words at least.
#[derive(Drop)]
pub struct Reader<'a> {
    pub words: &'a [u32],
    pub at: usize,
    pub least: usize,
}

impl<'a> Model for Reader<'a> {
    ghost Value = { Reader };

    ghost view = { λ r. reading r.words.now r.at r.least };
}

// The place of the first fault: in a list the word that offends, or the list's length.
#[derive(Clone, Copy, Debug, PartialEq, Eq)]
pub struct Fault(pub usize);

// "image and library 8,192 words each"
pub const MOST_WORDS: usize = 8192;

// "each text 65,536 bytes"
const MOST_BYTES: usize = 65536;

// Before the first word, with the fewest words that the whole can have; or a fault at place 0 where the text is over its limit.
pub fn begin<'a>(text: &[u8], words: &'a [u32], least: usize) -> Result<Reader<'a>, Fault>
    ensures { result ≡ beginning (length text.now) words.now least }
{
    if text.len() > MOST_BYTES {
        Err(Fault(0))
    } else {
        Ok(Reader {
            words,
            at: 0,
            least,
        })
    }
}

// Whether a word at `at` that its rule calls good, and that owes more words, lies with all of them within 8,192.
fn admits(at: usize, least: usize, good: bool, owes: usize) -> bool
    ensures { result ≡ (ltb at most_words && (good && leb (least + owes) most_words)) }
{
    at < MOST_WORDS && good && least.saturating_add(owes) <= MOST_WORDS
}

impl<'a> Reader<'a> {
    // The word before which a reading stands, and 0 past the end.
    pub fn next_word(&self) -> u32
        ensures { result ≡ next_word self.now }
    {
        tok::word_at(self.words, self.at)
    }

    // One word that owes more after it: a count or a length. `good`: whether its field's rule holds of it.
    pub fn owing(self, good: bool, owes: usize) -> Result<Self, Fault>
        ensures { Comes self.entry (owing (λ _. good) (λ _. owes)) (next_word self.entry) result }
    {
        if self.at < self.words.len() && admits(self.at, self.least, good, owes) {
            Ok(Reader {
                at: self.at + 1,
                least: self.least + owes,
                ..self
            })
        } else {
            Err(Fault(self.at))
        }
    }

    // One word that owes none.
    pub fn word(self, good: bool) -> Result<Self, Fault>
        ensures { Comes self.entry (word (λ _. good)) (next_word self.entry) result }
    {
        self.owing(good, 0)
    }

    // One word below a number.
    #[tactic(auto, using(crate::specs::Laws::by_rule))]
    pub fn below(self, n: usize) -> Result<Self, Fault>
        ensures { Comes self.entry (below n) (next_word self.entry) result }
    {
        let good = (self.next_word() as usize) < n;
        self.word(good)
    }

    // One name or token, held by the text of which bit 24 tells.
    #[tactic(auto, using(crate::specs::Laws::by_rule))]
    pub fn name(self, source: Source, text: &[u8]) -> Result<Self, Fault>
        ensures { Comes self.entry (word (good_name (bit_of source) text.now)) (next_word self.entry) result }
    {
        let good = tok::good_name(source.bit(), text, self.next_word());
        self.word(good)
    }

    // Reads `count` times by one rule, which is told how often it was read before.
    pub fn many<F: Fn(Self, usize) -> Result<Self, Fault>>(
        self,
        count: usize,
        one: F,
    ) -> Result<Self, Fault>
        requires { F.IsAlwaysCallable one }
        ensures { Repeated (F.post one) 0 count self.entry result }
    {
        let mut to = self;
        for i in 0..count {
            to = one(to, i)?;
        }
        Ok(to)
    }

    // No word is left.
    #[tactic(auto, using(crate::specs::Laws::ends_left, crate::specs::Laws::ends_here))]
    pub fn ends(self) -> Result<Self, Fault>
        ensures { Comes self.entry ends tt result }
    {
        if self.at < self.words.len() {
            return Err(Fault(self.at));
        }
        Ok(self)
    }
}
