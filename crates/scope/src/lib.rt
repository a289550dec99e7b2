// Names in scope, own functions and packages held: finding them (typecheck/lib.rs: `env_get`, `functions`, `packages`).
#![tactic(auto)]

ghost use Rattle.std.specs.Prelude.{◌≡◌, List, ℕ, ◌+◌, ◌*◌, ◌^◌, ◌<◌, ◌≤◌, length, get_or};
ghost use Rattle.tok.specs.Text.{name_bytes};
ghost use Rattle.library.specs.Package.{find_function, find_package};
ghost use Rattle.rules.specs.Steps.{env_get};
ghost use Rattle.state.specs.Signatures.{entries_end, own_in};
ghost use Rattle.state.specs.Store.{poisoned, local_name, env_up, held_at, held_size, held_from, held_end};
ghost use Rattle.scope.specs.Found.{Owned, owned, binding_of, own_of, package_of, held_of};

use state::EXTERN;
use std::marker::Model;
use tok::{Texts, kind, name_bytes, word_at};

// The names in scope: `depth` of them, from name number `base` on.
#[derive(Clone, Copy)]
pub struct Names {
    pub base: usize,
    pub depth: usize,
}

// What a name is bound to: a type's word, or nothing that is known, since an error was reported.
#[derive(Clone, Copy)]
pub enum Binding {
    Bound(u32),
    Poisoned,
}

// The place of a package: in the library, or in scratch where an Extern's is kept.
#[derive(Clone, Copy)]
pub enum Held {
    Library(usize),
    Extern(usize),
}

// The kind of a poisoned name's word: one more than a name's.
const POISONED: u32 = 13;

// Whether a name in scope is poisoned.
fn is_poisoned(w: u32) -> bool
    ensures { result ≡ poisoned w }
{
    kind(w) == POISONED
}

// The name's own word.
fn local_name(w: u32) -> u32
    ensures { result ≡ local_name w }
{
    if is_poisoned(w) {
        return w - tok::KIND;
    }
    w
}

// The newest binding of a name.
pub fn env_get(texts: &Texts, scratch: &[u32], names: Names, name: u32) -> Option<Binding>
    requires { names.base + names.depth ≤ 4096 }
    ensures { binding_of result ≡ env_get texts.now (name_bytes texts.now name) (env_up scratch.now names.base names.depth) }
{
    let wanted = name_bytes(texts, name);
    for k in (0..names.depth).rev() {
        let at = 2 * (names.base + k);
        let w = word_at(scratch, at);
        if tok::is_name(texts, wanted, local_name(w)) {
            if is_poisoned(w) {
                return Some(Binding::Poisoned);
            }
            return Some(Binding::Bound(word_at(scratch, at + 1)));
        }
    }
    None
}

// The own functions: `count` entries of the functions buffer, which lie in it.
#[derive(Drop)]
pub struct Own<'a> {
    pub words: &'a [u32],
    pub count: usize,
}

impl<'a> Model for Own<'a> {
    ghost Value = { Owned };

    ghost view = { λ o. owned o.words.now o.count };

    ghost invariant = { λ o. entries_end o.words.now 0 0 o.count ≤ length o.words.now };
}

impl<'a> Own<'a> {
    // Where the entries end.
    pub fn end(&self) -> usize
        ensures { result ≡ entries_end self.now.words 0 0 self.now.count }
    {
        let mut at = 0;
        for _ in 0..self.count {
            at += 3 + 2 * word_at(self.words, at + 1) as usize;
        }
        at
    }

    // The newest own function of a name: the place of its signature.
    pub fn find(&self, texts: &Texts, name: u32) -> Option<usize>
        ensures { own_of self.now.words result ≡ find_function texts.now (name_bytes texts.now name) (own_in self.now.words self.now.count) }
    {
        let wanted = name_bytes(texts, name);
        let mut found = None;
        let mut entry = 0;
        for _ in 0..self.count {
            if tok::is_name(texts, wanted, word_at(self.words, entry)) {
                found = Some(entry + 1);
            }
            entry += 3 + 2 * word_at(self.words, entry + 1) as usize;
        }
        found
    }
}

// Which package is held at a word of scratch, and how many words it takes there.
fn held_at(scratch: &[u32], at: usize) -> (Held, usize)
    requires { at < 2 ^ 40 }
    ensures { ((library : List ℕ) → package_of library scratch.now result.0 ≡ held_at library scratch.now at) × (result.1 ≡ held_size (get_or scratch.now at 0)) }
{
    let w = word_at(scratch, at) as usize;
    if w < EXTERN {
        (Held::Library(w), 1)
    } else {
        (Held::Extern(at + 1), w - EXTERN)
    }
}

// Its name.
#[tactic(auto, unfolding(state::specs::Store::extern_at))]
fn held_name(words: &[u32], scratch: &[u32], held: Held) -> u32
    ensures { result ≡ (package_of words.now scratch.now held).name }
{
    match held {
        Held::Library(at) => word_at(words, at),
        Held::Extern(at) => word_at(scratch, at),
    }
}

// The newest package of a name, among k packages held from a word of scratch on.
pub fn find_held(
    texts: &Texts,
    words: &[u32],
    scratch: &[u32],
    from: usize,
    k: usize,
    name: u32,
) -> Option<Held>
    requires { held_end scratch.now from k ≤ 16384 }
    ensures { held_of words.now scratch.now result ≡ find_package texts.now (name_bytes texts.now name) (held_from words.now scratch.now from k) }
{
    let wanted = name_bytes(texts, name);
    let mut at = from;
    let mut part = 0;
    for _ in 0..k {
        let (held, size) = held_at(scratch, at);
        let own = held_name(words, scratch, held);
        if !tok::differs_in(texts, wanted, own, part) {
            if tok::is_name(texts, wanted, own) {
                return Some(held);
            }
            part = tok::next_part(part);
        }
        at += size;
    }
    None
}
