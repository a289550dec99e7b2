// Adds types to the types buffer: Option, Array, Record, and the library's pool (ptype.rs: arena.alloc, arena.alloc_slice).
// A buffer is lent with how many of its words are used, as an arena. A word past the end reads as 0, and none is stored there.
#![tactic(auto)]

ghost use Rattle.std.specs.Prelude.{◌≡◌, List, [], ◌∷◌, ℕ, ◌+◌, ◌*◌, ◌<◌, ◌^◌, min, leb, length, take, replicate};
ghost use Rattle.tok.specs.Text.{Texts};
ghost use Rattle.tok.specs.Step.{next};
ghost use Rattle.ptype.specs.Add.{add_wrap, write};
ghost use Rattle.ptype.specs.Marks.{Depths};
ghost use Rattle.add.specs.Answer.{buffer_of, answer_of, result_of, Adds};
ghost use Rattle.ptype.specs.TypeKind.{number_of_type};
ghost use Rattle.add.specs.Parts.{opened, shallow, measured};
ghost use Rattle.add.specs.Pool.{pool_types, all_shallow, Copies};
ghost use Rattle.add.specs.ShallowBy.{ShallowFound, shallow_found, shallow_by, all_shallow_by, RightAnswer};

use ptype::{MOST_WORDS, TypeKind};

// Why a type is not added: "types buffer full" (7), "type depth 33" (8).
#[derive(Clone, Copy, Debug, PartialEq, Eq)]
pub enum AddError {
    Full,
    TooDeep,
}

// The new type's word and how many words are used with it.
pub type Added = Result<(u32, usize), AddError>;

// "Type depth 32 (a type with nothing inside is 1)."
pub const MOST_LEVELS: usize = 32;

// How many words can be used: of those lent, at most so many.
fn type_room(types: &[u32]) -> usize
    ensures { result ≡ min (length types.now) 8192 }
{
    types.len().min(MOST_WORDS)
}

// Whether a type is at most 32 deep.
pub fn is_shallow(types: &[u32], w: u32) -> bool
    ensures { (t : Texts) → result ≡ shallow t types.now w }
{
    ptype::depth(types, w) <= MOST_LEVELS
}

// Whether a Record of so many fields has room after the words used.
fn record_fits(room: usize, used: usize, fields: usize) -> bool
    ensures { result ≡ leb (used + (1 + 2 * fields)) room }
{
    used < room && fields <= (room - used - 1) / 2
}

// The types buffer, and how many of its words are used: where the Rust allocates types (ptype.rs: arena).
#[derive(Drop)]
pub struct Arena<'a> {
    pub words: &'a mut [u32],
    pub used: usize,
}

impl<'a> Arena<'a> {
    // The lent words, of which so many are used.
    pub fn new(words: &'a mut [u32], used: usize) -> Arena<'a>
        ensures same_words { result.words.ghost_name ≡ words.entry.ghost_name }
        ensures as_used { (result.words.now ≡ words.old) × (result.used ≡ used) }
    {
        Arena { words, used }
    }

    // What was answered, with how many words are used now.
    pub fn answer(&self, added: Result<u32, AddError>) -> Added
        ensures { result ≡ answer_of added self.now.used }
    {
        Ok((added?, self.used))
    }

    // Its first `n` words, or all where there are fewer.
    pub fn first(&self, n: usize) -> &[u32]
        ensures { result.now ≡ take n self.now.words.now }
    {
        &self.words[..n.min(self.words.len())]
    }

    // How many words can be used.
    fn room(&self) -> usize
        ensures { result ≡ min (length self.now.words.now) 8192 }
    {
        type_room(self.words)
    }

    // Whether a type is at most 32 deep.
    fn is_shallow(&self, word: u32) -> bool
        ensures { (t : Texts) → result ≡ shallow t self.now.words.now word }
    {
        is_shallow(self.words, word)
    }

    // Adds a type of a kind that holds another one, of the type `inner`: an Option or an Array.
    pub fn add_wrap(&mut self, kind: TypeKind, inner: u32) -> Result<u32, AddError>
        ensures { Adds (λ t n. add_wrap t n (number_of_type kind) inner) self.old result self.new }
    {
        let at = self.used;
        if at >= self.room() {
            return Err(AddError::Full);
        }
        let old = self.words[at];
        self.words[at] = inner;
        let word = kind.word(at);
        if !self.is_shallow(word) {
            self.words[at] = old;
            return Err(AddError::TooDeep);
        }
        self.used += 1;
        Ok(word)
    }

    // Adds an Option of the type `inner`.
    pub fn add_option(&mut self, inner: u32) -> Result<u32, AddError>
        ensures { Adds (λ t n. add_wrap t n 6 inner) self.old result self.new }
    {
        self.add_wrap(TypeKind::Option, inner)
    }

    // Adds an Array of the type `inner`.
    pub fn add_array(&mut self, inner: u32) -> Result<u32, AddError>
        ensures { Adds (λ t n. add_wrap t n 7 inner) self.old result self.new }
    {
        self.add_wrap(TypeKind::Array, inner)
    }

    // Adds a Record of so many fields: room for all of it, and the count. Its pairs are set after that, and then it is closed.
    pub fn open_record(&mut self, fields: usize) -> Result<u32, AddError>
        ensures { Adds (λ t n. opened n fields) self.old result self.new }
    {
        if record_fits(self.room(), self.used, fields) {
            let word = TypeKind::Record.word(self.used);
            self.words[self.used] = fields as u32;
            self.used += 1 + 2 * fields;
            Ok(word)
        } else {
            Err(AddError::Full)
        }
    }

    // Measures a Record whose pairs are all set.
    pub fn close_record(&self, word: u32) -> Result<u32, AddError>
        ensures { (t : Texts) (n : ℕ) → measured t n word (buffer_of self.now) ≡ result_of n (answer_of result self.now.used) self.now.words.now }
    {
        if self.is_shallow(word) {
            Ok(word)
        } else {
            Err(AddError::TooDeep)
        }
    }
}

// The same of words that are only read, and of what opening the Record answered: where it was not opened, that answer stays.
pub fn close_record(types: &[u32], opened: Added) -> Added
    ensures { (t : Texts) (n : ℕ) → next (result_of n opened types.now) (measured t n) ≡ result_of n result types.now }
{
    let (word, used) = opened?;
    if is_shallow(types, word) {
        Ok((word, used))
    } else {
        Err(AddError::TooDeep)
    }
}

// Sets a field's name and type, from their place on.
pub fn set_pair(types: &mut [u32], at: usize, name: u32, ty: u32)
    ensures { types.new ≡ write types.old at (name ∷ ty ∷ []) }
{
    if at < types.len() {
        types[at] = name;
        tok::set_item(types, at + 1, ty);
    }
}

// Copies the pool to the front of the buffer, and says whether there was room (7).
pub fn copy_pool(types: &mut [u32], pool: &[u32]) -> bool
    ensures { Copies pool.now types.old result types.new }
{
    let n = pool.len();
    if n > type_room(types) {
        return false;
    }
    slices::copy(&mut types[..n], pool);
    true
}

// Whether a type is at most 32 deep by the depths that are marked of field lists (`ptype::depth_known`): where the marks are right, that is so, and
// they stay right.
pub fn is_shallow_known(types: &[u32], w: u32, known: &mut [u8]) -> bool
    ensures { let T : List ℕ = types.now in let K : List ℕ = known.old in let a : ShallowFound = shallow_found result known.new in
        (shallow_by T w K ≡ a) × RightAnswer T K (λ t. shallow t T w) a }
{
    ptype::depth_known(types, w, known) <= MOST_LEVELS
}

// Whether a word of the pool is a type at most 32 deep by what is marked, or no type.
fn word_is_shallow(types: &[u32], w: u32, known: &mut [u8]) -> bool
    ensures { all_shallow_by types.now (w ∷ []) known.old ≡ shallow_found result known.new }
{
    !ptype::is_type(w) || is_shallow_known(types, w, known)
}

// Whether every type of the pool is at most 32 deep. A word refers to smaller indices, so that what it holds is marked when its turn comes.
// The marks are right at the end.
pub fn pool_is_shallow(types: &[u32], pool: &[u32], known: &mut [u8]) -> bool
    ensures { let T : List ℕ = types.now in let P : List ℕ = pool.now in
        (all_shallow_by T P (replicate (length known.old) 0) ≡ shallow_found result known.new)
        × ((t : Texts) → result ≡ all_shallow t T (pool_types P)) × Depths T known.new }
{
    known.fill(0);
    for w in pool {
        if !word_is_shallow(types, *w, known) {
            return false;
        }
    }
    true
}
