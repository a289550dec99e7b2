// The rows of an answer one after the other, part by part: what a printing loop calls.
#![tactic(auto)]

ghost use Rattle.std.specs.Prelude.{◌≡◌};
ghost use Rattle.rows_window.specs.Showing.{Shows};
ghost use Rattle.rows_part.specs.Printing.{Answer, answer_of, bytes_of, diag_from, fn_from, next_at, Prints};

use ptype::Types;
use rows_window::{Window, WindowWriter};
use std::marker::Model;
use tok::word_at;

// A row: a slot's by its number, a function's by the place of its entry, a diagnostic's by its number; the last of an answer; a refusal's with number
// and place; and that of an input that does not fit.
#[derive(Clone, Copy)]
pub enum Row {
    Slot(u32),
    Fn(u32),
    Diag(u32),
    End,
    Refused(u32, usize),
    Input,
}

// A part that was written: how many bytes, and where the next part begins, if not all rows are written.
#[derive(Clone, Copy)]
pub struct Part {
    pub bytes: usize,
    pub row: Option<Row>,
    pub skip: usize,
}

// What rows are printed from: the types with the texts of their names, the other buffers, V, and how many function words and diagnostics are used.
#[derive(Drop)]
pub struct Answer<'a> {
    pub types: &'a Types<'a>,
    pub slots: &'a [u32],
    pub functions: &'a [u32],
    pub diagnostics: &'a [u32],
    pub messages: &'a [u8],
    pub last: u32,
    pub words: u32,
    pub count: u32,
}

impl<'a> Model for Answer<'a> {
    ghost Value = { Answer };

    ghost view = { λ a. answer_of a.types.now.texts.now a.slots.now a.types.now.words.now a.functions.now
        a.diagnostics.now a.messages.now a.last a.words a.count };
}

impl<'a> Answer<'a> {
    // The bytes of a row, if there is one, through a window.
    #[tactic(auto, unfolding(crate::specs::Printing::row_of), using(rows_window::specs::ShowingLaws::shows_as))]
    fn put_row(&self, w: &mut WindowWriter, row: Option<Row>)
        ensures { Shows w.old w.new (bytes_of self.now row) }
    {
        let Some(row) = row else {
            return;
        };
        match row {
            Row::Slot(i) => {
                let slot = i as usize;
                let word = word_at(self.slots, slot);
                rows::slot_row(w, self.types, slot, word);
            }
            Row::Fn(at) => {
                rows::fn_row(w, self.types, self.functions, at);
            }
            Row::Diag(k) => {
                rows::diag_row(w, self.diagnostics, self.messages, k);
            }
            Row::End => {
                rows::end_row(w, self.count as usize);
            }
            Row::Refused(number, place) => {
                rows::refused_row(w, number as usize, place);
            }
            Row::Input => {
                rows::input_row(w);
            }
        }
    }

    // The row of diagnostic k, or the last row where there are no more.
    #[tactic(auto, unfolding(crate::specs::Printing::diag_from))]
    fn diag_from(&self, k: usize) -> Row
        ensures { result ≡ diag_from self.now.count k }
    {
        if k < self.count as usize {
            Row::Diag(k as u32)
        } else {
            Row::End
        }
    }

    // The row of the function whose entry is at a place, or the first diagnostic's where there are no more.
    #[tactic(auto, unfolding(crate::specs::Printing::fn_from))]
    fn fn_from(&self, at: usize) -> Row
        ensures { result ≡ fn_from self.now.words self.now.count at }
    {
        if at < self.words as usize {
            Row::Fn(at as u32)
        } else {
            self.diag_from(0)
        }
    }

    // The row behind a row, if there is one: none behind the last, and none behind none.
    #[tactic(auto, unfolding(crate::specs::Printing::next_of))]
    fn next(&self, row: Option<Row>) -> Option<Row>
        ensures { result ≡ next_at self.now row }
    {
        match row? {
            Row::Slot(i) => {
                if i < self.last {
                    Some(Row::Slot(i + 1))
                } else {
                    Some(self.fn_from(0))
                }
            }
            Row::Fn(at) => {
                let i = at as usize;
                let n = word_at(self.functions, i + 1) as usize;
                Some(self.fn_from(i + 3 + 2 * n))
            }
            Row::Diag(k) => Some(self.diag_from(k as usize + 1)),
            Row::End | Row::Refused(_, _) | Row::Input => None,
        }
    }

    // Writes the part of a row behind its first bytes into a buffer, as much as has room. A part goes no further than to the last place of a row
    // that a number can say: where the bytes passed over are as many as that, it is empty. So it is where there is no row.
    pub fn write_part(&self, out: &mut [u8], row: Option<Row>, skip: usize) -> Part
        ensures { Prints self.now row skip out.old out.new result }
    {
        let mut w = WindowWriter {
            buffer: out,
            window: Window { skip, at: 0 },
        };
        self.put_row(&mut w, row);
        let room = w.buffer.len().min(usize::MAX - skip);
        let n = w.window.at.min(room);
        if n < room {
            return Part {
                bytes: n,
                row: self.next(row),
                skip: 0,
            };
        }
        Part {
            bytes: n,
            row,
            skip: skip + n,
        }
    }
}
