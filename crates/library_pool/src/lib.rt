// The library's pool and its type words (document 01, "Words"): which are good, and reading the pool forward.
#![tactic(auto)]

ghost use Rattle.std.specs.Prelude.{◌≡◌, ◌&&◌, List, ℕ, ◌+◌, ◌*◌, ◌<◌, ◌^◌, eqb, leb, ltb, get_or};
ghost use Rattle.tok.specs.Word.{kind_of, payload_of};
ghost use Rattle.tok.specs.Text.{texts_of};
ghost use Rattle.tok.specs.Reader.{word};
ghost use Rattle.reader.specs.Reading.{next_word, Comes};
ghost use Rattle.library.specs.Pool.{pool_at, good_type, fields, good_pool_word, pairs_after, pool_from};

use ptype::TypeKind;
use reader::{Fault, Reader};
use tok::Source;

// The kind of a field count's word: no type has it.
const COUNT: u32 = 0;

// The words of a pool, and the text that holds the library's names.
#[derive(Clone, Copy)]
pub struct Pool<'a> {
    pub text: &'a [u8],
    pub words: &'a [u32],
}

// How many pairs follow a pool word.
fn pairs_after(w: u32) -> usize
    ensures { result ≡ pairs_after w }
{
    if tok::kind(w) == COUNT {
        tok::payload(w)
    } else {
        0
    }
}

impl<'a> Pool<'a> {
    // An Option or an Array refers to a type word of the pool below `own`; Unknown is not allowed.
    fn good_inner(&self, own: usize, w: u32) -> bool
        ensures { let k : ℕ = kind_of (get_or self.now.words.now (payload_of w) 0) in result ≡ (ltb (payload_of w) own && (leb 1 k && leb k 10)) }
    {
        let inner = tok::payload(w);
        inner < own && matches!(tok::kind(tok::word_at(self.words, inner)), 1..=10)
    }

    // A Record refers to a field count of the pool, whose whole list lies below `own`.
    fn good_list(&self, own: usize, w: u32) -> bool
        ensures { let c : ℕ = get_or self.now.words.now (payload_of w) 0 in
            result ≡ (ltb (payload_of w) own && (eqb (kind_of c) 0 && leb (payload_of w + 1 + 2 * payload_of c) own)) }
    {
        let list = tok::payload(w);
        if list >= own {
            return false;
        }
        let count = tok::word_at(self.words, list);
        tok::kind(count) == COUNT && list + 1 + 2 * tok::payload(count) <= own
    }

    // Whether a word is a type word that refers below `own`. Unknown is not allowed.
    pub fn good_type(&self, own: usize, w: u32) -> bool
        ensures { (script : List ℕ) (size : ℕ) → result ≡ good_type (pool_at (texts_of script self.now.text.now) size self.now.words.now) own w }
    {
        match TypeKind::of(w) {
            TypeKind::Void | TypeKind::Bool | TypeKind::Int | TypeKind::Double | TypeKind::Str => {
                tok::payload(w) == 0
            }
            TypeKind::Option | TypeKind::Array => self.good_inner(own, w),
            TypeKind::Record => self.good_list(own, w),
            TypeKind::Foreign | TypeKind::Slot => tok::good_payload(
                Source::Library.bit(),
                self.text,
                w,
            ),
            _ => false,
        }
    }

    // A type word that refers below `own`.
    #[tactic(auto, using(reader::specs::Laws::by_rule))]
    fn type_word<'b>(&self, own: usize, from: Reader<'b>) -> Result<Reader<'b>, Fault>
        ensures { (script : List ℕ) (size : ℕ) → Comes from.entry (word (good_type (pool_at (texts_of script self.now.text.now) size self.now.words.now) own)) (next_word from.entry) result }
    {
        let w = from.next_word();
        from.word(self.good_type(own, w))
    }

    // n pairs of a field list, the first at pool index i: a name and a type word each.
    #[tactic(auto, unfolding(reader::specs::Reading::gave), using(crate::proofs::PoolWays::fields_some, crate::proofs::PoolWays::fields_none))]
    fn fields<'b>(&self, n: usize, i: usize, from: Reader<'b>) -> Result<Reader<'b>, Fault>
        requires { i + 2 * n < 2 ^ 40 }
        ensures { (script : List ℕ) (size : ℕ) → Comes from.entry (fields (pool_at (texts_of script self.now.text.now) size self.now.words.now) n i) (i + 2 * n) result }
    {
        let mut to = from;
        for k in 0..n {
            let at = to.name(Source::Library, self.text)?;
            to = self.type_word(i + 2 * k + 1, at)?;
        }
        Ok(to)
    }

    // A field count whose pairs all stand in the pool, or a type word.
    #[tactic(auto, unfolding(library::specs::Pool::good_pool_word))]
    fn good_pool_word(&self, size: usize, i: usize, w: u32) -> bool
        requires { i < 2 ^ 40 }
        ensures { (script : List ℕ) → result ≡ good_pool_word (pool_at (texts_of script self.now.text.now) size self.now.words.now) i w }
    {
        if tok::kind(w) == COUNT {
            i + 1 + 2 * tok::payload(w) <= size
        } else {
            self.good_type(i, w)
        }
    }

    // The pool of `count` words, from its first word to its last.
    pub fn pool_words<'b>(&self, count: u32, from: Reader<'b>) -> Result<Reader<'b>, Fault>
        ensures { (script : List ℕ) → Comes from.entry (pool_from (pool_at (texts_of script self.now.text.now) count self.now.words.now) count 0) tt result }
    {
        let size = count as usize;
        let mut to = from;
        let mut i = 0;
        while i < size {
            let w = to.next_word();
            let at = to.word(self.good_pool_word(size, i, w))?;
            let n = pairs_after(w);
            to = self.fields(n, i + 1, at)?;
            i += 1 + 2 * n;
        }
        Ok(to)
    }
}
