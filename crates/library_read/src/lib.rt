// Reading a library (document 01, "Words" and "Answers that end the check"): refusal 2 and its place. The pool is read first; what is
// said of the packages holds where it was accepted and its slots are counted: `Ready`, the invariant of `Pool`.
#![tactic(auto)]

ghost use Rattle.std.specs.Prelude.{◌≡◌, true, false, ◌&&◌, List, [], ℕ, ◌+◌, ◌*◌, length, get_or, eqb};
ghost use Rattle.tok.specs.Reader.{many};
ghost use Rattle.reader.specs.Reading.{next_word, Comes, offending};
ghost use Rattle.library.specs.Pool.{pool_at};
ghost use Rattle.library.specs.Entries.{functions_in};
ghost use Rattle.library.specs.Slots.{return_stands};
ghost use Rattle.library.specs.SlotMarks.{types_in};
ghost use Rattle.library.specs.Each.{Each};
ghost use Rattle.library.specs.TypeWords.{TypeWord};
ghost use Rattle.library.specs.Package.{param, params_from, function_at, functions_from, packages_from};
ghost use Rattle.library.specs.PackagesRead.{GroupFine, package_at};
ghost use Rattle.library.specs.PackageRecords.{any_function, same_group, good_group, good_flag, good_signature_type, argument, function_record, function_records, package_record};
ghost use Rattle.library.specs.LibraryFault.{library_fault};
ghost use Rattle.library_read.specs.Ready.{Counted, counted, pool, PoolReads, Ready, OrderedIn, Placed};

use library::Entries;
use reader::{Fault, MOST_WORDS, Reader};
use signatures::Group;
use std::marker::Model;
use tok::{Source, Texts};

// Groups and flags.

// Whether one of some functions is of a group.
fn group_met(texts: &Texts, functions: &Entries, group: u32) -> bool
    ensures { result ≡ any_function (same_group texts.now group) (functions_in functions.now) }
{
    let name = tok::name_bytes(texts, group);
    functions.find(texts, name).is_some()
}

// Whether one of them has slots.
fn group_slotted(texts: &Texts, functions: &Entries, group: u32) -> bool
    ensures { result ≡ any_function (λ f. same_group texts.now group f && f.sig.with_slots) (functions_in functions.now) }
{
    let name = tok::name_bytes(texts, group);
    Group::new(texts, name, functions).any(|candidate| candidate.has_slots())
}

// The group name of a function after those before it in its package: none of its group has flag 1. `kept`: the rule is known to hold.
#[tactic(auto, unfolding(library::specs::PackageRecords::good_group))]
fn good_group(texts: &Texts, before: &Entries, kept: bool, group: u32) -> bool
    ensures { ((size : ℕ) (types : List ℕ) → (kept ≡ true → any_function (λ f. same_group texts.now group f && f.sig.with_slots) (functions_in before.now) ≡ false)
        → result ≡ good_group (pool_at texts.now size types) (functions_in before.now) group) }
{
    tok::good_name(Source::Library.bit(), texts.library, group)
        && (kept || !group_slotted(texts, before, group))
}

// Its flag: 1 only where none is of its group.
#[tactic(auto, unfolding(library::specs::PackageRecords::good_flag))]
fn good_flag(texts: &Texts, before: &Entries, kept: bool, group: u32, flag: u32) -> bool
    ensures { ((size : ℕ) (types : List ℕ) → (kept ≡ true → flag ≡ 1 → any_function (same_group texts.now group) (functions_in before.now) ≡ false)
        → result ≡ good_flag (pool_at texts.now size types) (functions_in before.now) group flag) }
{
    flag == 0 || flag == 1 && (kept || !group_met(texts, before, group))
}

// What the packages are read with: the texts, the words of the pool, which is accepted, how many of them hold a slot before each index, and
// the places of the library's slots in the order of their names, or none.
#[derive(Drop)]
struct Pool<'a> {
    texts: &'a Texts<'a>,
    words: &'a [u32],
    sums: &'a [u16],
    order: &'a [u16],
}

impl<'a> Model for Pool<'a> {
    ghost Value = { Counted };

    ghost view = { λ p. counted p.texts.now p.words.now p.sums.now p.order.now };

    ghost invariant = { λ p. Ready p.texts.now p.words.now p.sums.now };
}

impl<'a> Pool<'a> {
    // A type of a signature: it refers into the pool, and holds a slot only where the function has slots.
    #[tactic(auto, unfolding(library::specs::PackageRecords::good_signature_type))]
    fn good_signature_type(&self, slotted: bool, w: u32) -> bool
        ensures { (flag : ℕ) → slotted ≡ eqb flag 1 → result ≡ good_signature_type (pool self.now) flag w }
    {
        let texts = self.texts;
        let pool = library_pool::Pool {
            text: texts.library,
            words: self.words,
        };
        pool.good_type(self.words.len(), w)
            && (slotted || !library_slots::has_slot(self.words, self.sums, w))
    }

    // An argument: its name and its type.
    #[tactic(auto, unfolding(library::specs::PackageRecords::argument, reader::specs::Reading::gave))]
    fn argument<'b>(&self, slotted: bool, from: Reader<'b>) -> Result<Reader<'b>, Fault>
        ensures { (flag : ℕ) → slotted ≡ eqb flag 1 → Comes from.entry (argument (pool self.now) flag)
            (param (next_word from.entry) (get_or from.entry.words (from.entry.at + 1) 0)) result }
    {
        let texts = self.texts;
        let at = from.name(Source::Library, texts.library)?;
        let w = at.next_word();
        at.word(self.good_signature_type(slotted, w))
    }

    // All arguments.
    fn arguments<'b>(
        &self,
        slotted: bool,
        count: u32,
        from: Reader<'b>,
    ) -> Result<Reader<'b>, Fault>
        ensures { (flag : ℕ) → slotted ≡ eqb flag 1 → Comes from.entry (many count (argument (pool self.now) flag))
            (params_from from.entry.words from.entry.at count) result }
    {
        from.many(count as usize, |to, _| self.argument(slotted, to))
    }

    // A return type: a type of the signature, whose slots stand in the arguments. The arguments' pairs stand from place `first` on, it at `end`.
    fn good_return(&self, slotted: bool, pairs: &[u32], w: u32, first: usize, end: usize) -> bool
        ensures { (flag : ℕ) (words : List ℕ) → slotted ≡ eqb flag 1 → OrderedIn words self.now
            → Each (TypeWord (pool self.now) (length self.now.words)) (types_in pairs.now) → Placed words (types_in pairs.now) w first end
            → result ≡ (good_signature_type (pool self.now) flag w && return_stands (pool self.now) (types_in pairs.now) w) }
    {
        self.good_signature_type(slotted, w)
            && (!library_slots::has_slot(self.words, self.sums, w)
                || library_slots::return_stands(
                    self.texts,
                    self.words,
                    pairs,
                    w,
                    self.order,
                    self.order.len(),
                    first,
                    end,
                ))
    }

    // A function after those before it in its package. `kept`: the rule on groups is known to hold of it.
    fn function_record<'b>(
        &self,
        before: &Entries,
        kept: bool,
        from: Reader<'b>,
    ) -> Result<Reader<'b>, Fault>
        ensures { OrderedIn from.entry.words self.now
            → (kept ≡ true → GroupFine (pool self.now) (functions_in before.now) (function_at from.entry.words from.entry.at))
            → Comes from.entry (function_record (pool self.now) (functions_in before.now)) (function_at from.entry.words from.entry.at) result }
    {
        let group = from.next_word();
        let good = good_group(self.texts, before, kept, group);
        let at = from.word(good)?;
        let flag = at.next_word();
        let good = good_flag(self.texts, before, kept, group, flag);
        let at = at.word(good)?;
        let count = at.next_word();
        let args = at.owing(true, 2 * count as usize)?;
        let first = args.at;
        let pairs = library::words_at(args.words, first, 2 * count as usize);
        let slotted = flag == 1;
        let end = self.arguments(slotted, count, args)?;
        let w = end.next_word();
        let good = self.good_return(slotted, pairs, w, first, end.at);
        end.word(good)
    }

    // All functions of a package.
    fn function_records<'b>(&self, count: u32, from: Reader<'b>) -> Result<Reader<'b>, Fault>
        ensures { OrderedIn from.entry.words self.now
            → Comes from.entry (function_records (pool self.now) count []) (functions_from from.entry.words from.entry.at count) result }
    {
        let words = from.words;
        let start = from.at;
        let end = count as usize;
        let kept = library_groups::kept_up_to(self.texts, words, start, end);
        from.many(end, |to, k| {
            let before = Entries {
                words,
                flagged: true,
                from: start,
                count: k,
            };
            let known = to.at < kept;
            self.function_record(&before, known, to)
        })
    }

    // A package.
    fn package_record<'b>(&self, from: Reader<'b>) -> Result<Reader<'b>, Fault>
        ensures { OrderedIn from.entry.words self.now
            → Comes from.entry (package_record (pool self.now)) (package_at from.entry.words from.entry.at) result }
    {
        let texts = self.texts;
        let at = from.name(Source::Library, texts.library)?;
        let count = at.next_word();
        let at = at.owing(true, 4 * count as usize)?;
        self.function_records(count, at)
    }

    // All packages.
    fn packages<'b>(&self, count: u32, from: Reader<'b>) -> Result<Reader<'b>, Fault>
        ensures { OrderedIn from.entry.words self.now
            → Comes from.entry (many count (package_record (pool self.now))) (packages_from from.entry.words from.entry.at count) result }
    {
        from.many(count as usize, |to, _| self.package_record(to))
    }
}

// The pool length, the package count and the pool: how many packages follow, and the reading before them.
fn pool_read<'a>(texts: &Texts, words: &'a [u32]) -> Result<(u32, Reader<'a>), Fault>
    ensures { PoolReads texts.now words.now result }
{
    let at = reader::begin(texts.library, words, 2)?;
    let size = at.next_word();
    let at = at.owing(true, size as usize)?;
    let count = at.next_word();
    let at = at.owing(true, 2 * count as usize)?;
    let pool = library_pool::Pool {
        text: texts.library,
        words: library::pool(words),
    };
    let at = pool.pool_words(size, at)?;
    Ok((count, at))
}

// The library: pool length, package count, pool, packages, nothing after. Accepted, or the first offending word.
pub fn library_fault(texts: &Texts, words: &[u32]) -> Result<(), Fault>
    ensures { library_fault texts.now words.now ≡ offending result }
{
    let (count, at) = pool_read(texts, words)?;
    let pool = library::pool(words);
    let mut sums = [0u16; MOST_WORDS + 1];
    library_slots::slot_sums(pool, &mut sums);
    let mut places = [0u16; MOST_WORDS];
    let n = library_slots::named_slots(texts, words, pool, &sums, &mut places).unwrap_or(0);
    let pool = Pool {
        texts,
        words: pool,
        sums: &sums,
        order: &places[..n],
    };
    let end = pool.packages(count, at)?;
    end.ends()?;
    Ok(())
}
