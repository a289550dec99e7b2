// The walk up to its roots: slots emptied, the library's pool copied, its types measured (document 01, "Answers that end the check"; rules,
// `walk_first`). Only slots and types are written; `words` are the library's.
#![tactic(auto)]

ghost use Rattle.std.specs.Prelude.{◌≡◌, List, ℕ, [], ◌∷◌};
ghost use Rattle.tok.specs.Text.{Texts};
ghost use Rattle.library.specs.Package.{function_at, functions_from, packages_of};
ghost use Rattle.ptype.specs.Marks.{Depths};
ghost use Rattle.add.specs.Parts.{shallow};
ghost use Rattle.add.specs.Pool.{all_shallow};
ghost use Rattle.rules.specs.Walk.{empty_slots, param_types, function_types, package_types};
ghost use Rattle.tworuns.specs.Accepted.{library_types};
ghost use Rattle.start.specs.Begin.{first_state, Starts};

use err::Counts;
use library::{Function, Package, Signature};
use ptype::{MOST_WORDS, VOID_WORD};
use scope::Names;
use state::{HELD_TOP, Kept, Refusal, Used};
use std::marker::Model;
use visit::{State, Visit};

// "slot words (0 where none; slot V is Void)"
pub fn empty_slots(slots: &mut [u32], void: usize)
    ensures { slots.new ≡ empty_slots void slots.old }
{
    zero::zero_first(slots, void);
    operators::store(slots, void, VOID_WORD);
}

// The types buffer, with what was found of the depths of its field lists (crate `ptype`): every mark is right. Its value is the buffer's words.
#[derive(Drop)]
struct Measured<'a, 'b> {
    types: &'a [u32],
    known: &'b mut [u8],
}

impl<'a, 'b> Model for Measured<'a, 'b> {
    ghost Value = { List ℕ };

    ghost view = { λ m. m.types.now };

    ghost invariant = { λ m. Depths m.types.now m.known.now };
}

impl<'a, 'b> Measured<'a, 'b> {
    // Whether a type is at most 32 deep.
    fn is_shallow(&mut self, w: u32) -> bool
        ensures { ((t : Texts) → result ≡ shallow t self.old w) × (self.new ≡ self.old) }
    {
        add::is_shallow_known(self.types, w, &mut self.known[..])
    }

    // Whether the types of the arguments of a signature are at most 32 deep.
    fn arguments_are_shallow(&mut self, signature: &Signature) -> bool
        ensures { ((t : Texts) → result ≡ all_shallow t self.old (param_types signature.now.params)) × (self.new ≡ self.old) }
    {
        for i in 0..signature.argument_count() {
            if !self.is_shallow(signature.argument_type(i)) {
                return false;
            }
        }
        true
    }

    // The same, of all types of a function.
    fn function_is_shallow(&mut self, function: &Function) -> bool
        ensures { ((t : Texts) → result ≡ all_shallow t self.old (function_types (function_at function.now.words.now function.now.at ∷ []))) × (self.new ≡ self.old) }
    {
        let signature = function.signature();
        if !self.arguments_are_shallow(&signature) {
            return false;
        }
        self.is_shallow(signature.return_type())
    }

    // The same, of k functions from a word on.
    fn functions_are_shallow(&mut self, words: &[u32], from: usize, k: usize) -> bool
        ensures { ((t : Texts) → result ≡ all_shallow t self.old (function_types (functions_from words.now from k))) × (self.new ≡ self.old) }
    {
        let mut at = from;
        for _ in 0..k {
            let function = Function { words, at };
            if !self.function_is_shallow(&function) {
                return false;
            }
            at = function.end();
        }
        true
    }

    // The same, of all packages.
    fn packages_are_shallow(&mut self, words: &[u32]) -> bool
        ensures { ((t : Texts) → result ≡ all_shallow t self.old (package_types (packages_of words.now))) × (self.new ≡ self.old) }
    {
        let mut at = library::packages_place(words);
        let count = library::package_count(words);
        for _ in 0..count {
            let package = Package { words, at };
            if !self.functions_are_shallow(words, at + 2, package.function_count()) {
                return false;
            }
            at = package.end();
        }
        true
    }
}

// Whether every type of the library is at most 32 deep, where its pool stands at the front of the types buffer.
pub fn library_is_shallow(types: &[u32], words: &[u32]) -> bool
    ensures { (t : Texts) → result ≡ all_shallow t types.now (library_types words.now) }
{
    let known = &mut [0; MOST_WORDS];
    if !add::pool_is_shallow(types, library::pool(words), known) {
        return false;
    }
    let mut measured = Measured { types, known };
    measured.packages_are_shallow(words)
}

// The state before the first root: the pool is used; nothing is in scope, no package is held, no own function is met.
fn first_state(pool: usize) -> State
    ensures { result ≡ first_state pool }
{
    State {
        used: Used {
            types: pool,
            told: Counts {
                diagnostics: 0,
                bytes: 0,
            },
            kept: Kept {},
        },
        names: Names { base: 0, depth: 0 },
        held: HELD_TOP,
        packages: 0,
        functions: 0,
    }
}

// "Then the pool is copied (7) and every library type measured (8)": "N for the pool", "N for the library".
pub fn begin(slots: &mut [u32], types: &mut [u32], image: &[u32], words: &[u32]) -> Visit<()>
    ensures { Starts image.now words.now slots.old types.old slots.new types.new result }
{
    let nodes = ast::node_count(image);
    empty_slots(slots, ast::slot_count(image) as usize);
    let pool = library::pool(words);
    if !add::copy_pool(types, pool) {
        return Err(Refusal::TypesFull(nodes));
    }
    if !library_is_shallow(&types[..], words) {
        return Err(Refusal::TooDeep(nodes));
    }
    Ok(((), first_state(pool.len())))
}
