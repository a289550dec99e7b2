// Printing the rows of an input, part by part, so that a row may be longer than any buffer. What a part holds, and where the next begins, is
// `rows_part`'s contract; no contract can say what the system writes.
#![tactic(auto)]

ghost use Rattle.std.specs.Prelude.{◌≡◌, ◌^◌, ◌<◌, IfOk, Some};
ghost use Rattle.rows_part.specs.Printing.{part_of};
ghost use Rattle.printing.specs.Handed.{Handed};

use rows_begin::Begun;
use rows_part::{Answer, Part, Row};
use std::io;
use tok::word_at;

// How much of a row is printed at the most: more than any machine prints, and so little that no place in a row is too large for a number.
const MOST: usize = 0x4000_0000_0000_0000;

// Prints the part of a row behind its first bytes.
fn print_part(rt: &impl Print, answer: &Answer, row: Row, skip: usize) -> io::Result<Part>
    requires { skip < 2 ^ 63 }
    ensures { IfOk result (λ part. part ≡ part_of 4096 answer.now (Some row) skip) }
{
    let mut out = [0u8; 4_096];
    let part = answer.write_part(&mut out, Some(row), skip);
    let n = part.bytes;
    rt.write_all(&out[0..n])?;
    Ok(part)
}

// Beside the rows of document 01, where they are compared with the Rust's: behind a diagnostic's row its primary message.
fn print_primary(rt: &impl Print, answer: &Answer, k: u32) -> io::Result<()> {
    let at = 6 * k as usize;
    let from = word_at(answer.diagnostics, at + 3) as usize
        + word_at(answer.diagnostics, at + 4) as usize;
    let size = word_at(answer.diagnostics, at + 5) as usize;
    if size == 0 {
        return Ok(());
    }
    rt.write_all(b"primary ")?;
    rt.write_all(slices::part(answer.messages, from, size))?;
    rt.write_all(b"\n")
}

// And before the last row the four counts.
fn print_counts(rt: &impl Print, begun: Begun) -> io::Result<()> {
    println!(rt;
        "counts {} {} {} {}",
        begun.words, begun.types, begun.count, begun.bytes
    )
}

// What is printed between a row and the next, if there is one.
fn print_between(
    rt: &impl Print,
    answer: &Answer,
    begun: Begun,
    row: Row,
    next: Option<Row>,
) -> io::Result<()> {
    if let Row::Diag(k) = row {
        print_primary(rt, answer, k)?;
    }
    if let Some(Row::End) = next {
        print_counts(rt, begun)?;
    }
    Ok(())
}

// Prints all rows from the first on, if there is one; if `full`, with primary messages and counts between them, which are not counted. How many
// bytes of rows were handed to the system, as far as 64 bits count them; none where a row of 2^62 bytes or more was left off.
pub fn print_rows(
    rt: &impl Print,
    answer: &Answer,
    begun: Begun,
    full: bool,
) -> io::Result<Option<usize>>
    ensures { IfOk result (λ printed. Handed answer.now begun.first printed) }
{
    let mut next = begun.first;
    let mut skip = 0;
    let mut total: usize = 0;
    'rows: while let Some(row) = next {
        if skip >= MOST {
            return Ok(None);
        }
        let part = print_part(rt, answer, row, skip)?;
        next = part.row;
        skip = part.skip;
        total = total.wrapping_add(part.bytes);
        if full && skip == 0 {
            print_between(rt, answer, begun, row, next)?;
        }
    }
    Ok(Some(total))
}
