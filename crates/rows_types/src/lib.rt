// `Display` of types and of arguments through a window (ptype.rs, typecheck/display.rs). Once the window is full, no part of a type is gone through.
#![tactic(auto)]

ghost use Rattle.std.specs.Prelude.{◌≡◌, ◌++◌};
ghost use Rattle.ptype.specs.Ty.{Fields};
ghost use Rattle.ptype.specs.Words.{fields_from};
ghost use Rattle.ptype.specs.Types.{type_at};
ghost use Rattle.ptype.specs.Show.{show, show_fields};
ghost use Rattle.rows_window.specs.Showing.{Shows};

use ptype::Types;
use rows_window::WindowWriter;

// A type as `Display` shows it.
pub fn show_type(w: &mut WindowWriter, types: &Types, word: u32)
    ensures { Shows w.old w.new (show (type_at types.now word)) }
{
    let _ = display::show_type(w, types, word);
}

// n arguments as `Display` shows them, whose names and types stand in `words` from the index i on, and what comes after them.
pub fn show_arguments(
    w: &mut WindowWriter,
    types: &Types,
    words: &[u32],
    i: usize,
    n: usize,
    after: &[u8],
)
    ensures { let F : Fields = fields_from (type_at types.now) types.now.texts.now words.now i n in
        Shows w.old w.new (show_fields F ++ after.now) }
{
    let _ = display::show_arguments(w, types, words, i, n);
    w.put(after);
}
