// Runs `utf8::well_formed` on boundary vectors. The expected output is that of oracle/src/bin/utf8_vectors.rs, a Rust program that
// does the same with std::str::from_utf8. A row is NAME AA COUNT SUM:
//     two AA       the strings of two bytes that begin with AA, all of them
//     three AA     strings of three bytes: AA, and two bytes of `edge`
//     four AA      strings of four bytes: AA, and three bytes of `edge`
//     NAME AA      the parts of a string of several characters that begin at AA, one for each end
// COUNT is how many of the row's strings are well formed, and SUM a number that any single wrong answer changes.
#![tactic(auto)]

use std::io;

// What the strings of a row came to.
#[derive(Clone, Copy, Default)]
struct Tally {
    count: u64,
    sum: u64,
}

// One more answer. The sum is kept by a prime modulus, to which 31 has an inverse, so that no later answer hides a wrong one.
fn counted(t: Tally, ok: bool) -> Tally {
    let one = u64::from(ok);
    Tally {
        count: t.count.wrapping_add(one),
        sum: t.sum % 4294967291 * 31 + one,
    }
}

// The ends of the ranges of RFC 3629's ABNF, and their neighbours.
fn edge(i: usize) -> u8 {
    let edges =
        b"\x00\x41\x7F\x80\x8F\x90\x9F\xA0\xBF\xC0\xC1\xC2\xDF\xE0\xE1\xEC\xED\xEE\xEF\xF0\xF1\xF3\xF4\xF5\xFF";
    edges.get(i).copied().unwrap_or(0)
}

fn byte(i: usize) -> u8 {
    (i % 256) as u8
}

// Whether the k-th of the strings of len bytes that begin with a is well formed.
fn answer(len: usize, a: u8, k: usize) -> bool {
    match len {
        2 => utf8::well_formed(&[a, byte(k)]),
        3 => utf8::well_formed(&[a, edge(k / 25), edge(k % 25)]),
        _ => utf8::well_formed(&[a, edge(k / 625), edge(k / 25 % 25), edge(k % 25)]),
    }
}

fn strings(len: usize, count: usize, a: u8) -> Tally {
    let mut t = Tally::default();
    for k in 0..count {
        t = counted(t, answer(len, a, k));
    }
    t
}

fn parts(text: &[u8], i: usize) -> Tally {
    let mut t = Tally::default();
    for j in i..=text.len() {
        t = counted(t, utf8::well_formed(&text[i..j]));
    }
    t
}

fn row(rt: &impl Print, name: &str, i: usize, t: Tally) -> io::Result<()> {
    println!(rt; "{name} {i:02x} {} {}", t.count, t.sum)
}

fn first_bytes(rt: &impl Print, name: &str, len: usize, count: usize) -> io::Result<()> {
    for i in 0..256usize {
        row(rt, name, i, strings(len, count, byte(i)))?;
    }
    Ok(())
}

fn starts(rt: &impl Print, name: &str, text: &[u8]) -> io::Result<()> {
    for i in 0..text.len() {
        row(rt, name, i, parts(text, i))?;
    }
    Ok(())
}

fn main(rt: HostRuntime) -> io::Result<()> {
    first_bytes(&rt, "two", 2, 256)?;
    first_bytes(&rt, "three", 3, 625)?;
    first_bytes(&rt, "four", 4, 15625)?;
    // the examples of RFC 3629, section 7
    starts(&rt, "not-identical", b"\x41\xE2\x89\xA2\xCE\x91\x2E")?;
    starts(&rt, "hangugeo", b"\xED\x95\x9C\xEA\xB5\xAD\xEC\x96\xB4")?;
    starts(&rt, "nihongo", b"\xE6\x97\xA5\xE6\x9C\xAC\xE8\xAA\x9E")?;
    starts(&rt, "stump", b"\xEF\xBB\xBF\xF0\xA3\x8E\xB4")?;
    // the first and the last character of each length
    starts(
        &rt,
        "ends",
        b"\x00\x7F\xC2\x80\xDF\xBF\xE0\xA0\x80\xEF\xBF\xBF\xF0\x90\x80\x80\xF4\x8F\xBF\xBF",
    )
}
