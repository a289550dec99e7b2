// The rows that the printing program prints (document 01, "Bench rows"), one function for each kind, each through a window.
#![tactic(auto)]

ghost use Rattle.std.specs.Prelude.{◌≡◌, List, ◌++◌, ℕ, ◌+◌, ◌*◌, get_or};
ghost use Rattle.tok.specs.Text.{text};
ghost use Rattle.ptype.specs.Show.{decimal};
ghost use Rattle.rules.specs.Rows.{fn_row};
ghost use Rattle.rows_window.specs.Showing.{Shows};
ghost use Rattle.rows.specs.Lines.{slot_row, diag_row, end_row, refused_row, input_row};

use ptype::Types;
use rows_types::{show_arguments, show_type};
use rows_window::WindowWriter;
use slices::part;
use tok::{name_bytes, word_at};

// A number, and a blank behind it.
fn put_number(w: &mut WindowWriter, n: usize)
    ensures { Shows w.old w.new (decimal n ++ text " ") }
{
    w.put_decimal(n);
    w.put(b" ");
}

// "`slot` lines (number, `Display` of the type) for slots that have a type": the slot of that number and word.
pub fn slot_row(w: &mut WindowWriter, types: &Types, slot: usize, word: u32)
    ensures { Shows w.old w.new (slot_row types.now.texts.now types.now.words.now slot word) }
{
    if word == 0 {
        w.put(b"");
        return;
    }
    w.put(b"slot ");
    put_number(w, slot);
    show_type(w, types, word);
    w.put(b"\n");
}

// "`fn` lines with name and `Display` of the signature": the entry at a place of the functions buffer.
pub fn fn_row(w: &mut WindowWriter, types: &Types, functions: &[u32], at: u32)
    ensures { let F : List ℕ = functions.now in
        Shows w.old w.new (fn_row types.now.texts.now types.now.words.now F at (get_or F (at + 1) 0)) }
{
    let i = at as usize;
    let name = word_at(functions, i);
    let n = word_at(functions, i + 1) as usize;
    let ret = word_at(functions, i + 2 + 2 * n);
    w.put(b"fn ");
    w.put(name_bytes(types.texts, name));
    w.put(b" (");
    show_arguments(w, types, functions, i + 2, n, b") -> ");
    show_type(w, types, ret);
    w.put(b"\n");
}

// "`diag` lines (code, start, length, message)": the diagnostic of that number.
pub fn diag_row(w: &mut WindowWriter, diagnostics: &[u32], messages: &[u8], k: u32)
    ensures { Shows w.old w.new (diag_row diagnostics.now messages.now (6 * k)) }
{
    let at = 6 * k as usize;
    let code = tok::payload(word_at(diagnostics, at));
    let start = word_at(diagnostics, at + 1) as usize;
    let len = word_at(diagnostics, at + 2) as usize;
    let from = word_at(diagnostics, at + 3) as usize;
    let size = word_at(diagnostics, at + 4) as usize;
    w.put(b"diag ");
    put_number(w, code);
    put_number(w, start);
    put_number(w, len);
    w.put(part(messages, from, size));
    w.put(b"\n");
}

// "and `end` with the diagnostic count".
pub fn end_row(w: &mut WindowWriter, diagnostics: usize)
    ensures { Shows w.old w.new (end_row diagnostics) }
{
    w.put(b"end ");
    w.put_decimal(diagnostics);
    w.put(b"\n");
}

// "A refusal prints the single line `refused` with number and place".
pub fn refused_row(w: &mut WindowWriter, number: usize, place: usize)
    ensures { Shows w.old w.new (refused_row number place) }
{
    w.put(b"refused ");
    put_number(w, number);
    w.put_decimal(place);
    w.put(b"\n");
}

// "lengths that don't fit the input print `input`".
pub fn input_row(w: &mut WindowWriter)
    ensures { Shows w.old w.new input_row }
{
    w.put(b"input\n");
}
