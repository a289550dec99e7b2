// Prints the rows of many stored cases, with primary messages and counts; what it must print is the Rust's output (oracle/replay/README.md).
#![tactic(auto)]

use std::io;

// The longest case that is read: damaged ones may be longer than the bench takes.
const LONGEST: usize = 131_072;

// The next little-endian word of the input, 0 past its end.
fn next_word(rt: &impl Input) -> io::Result<usize> {
    let mut bytes = [0u8; 4];
    commands::read_full(rt, &mut bytes)?;
    Ok(tok::little_endian(&bytes, 0) as usize)
}

// Reads a case of so many bytes, none if it has no room.
fn read_case(rt: &impl Input, input: &mut [u8], length: usize) -> io::Result<usize> {
    if length > input.len() {
        return Ok(0);
    }
    commands::read_full(rt, &mut input[0..length])
}

// Reads a case and prints its rows.
fn one_case(rt: &(impl Input + Print), length: usize) -> io::Result<()> {
    let mut input = [0u8; LONGEST];
    let n = read_case(rt, &mut input, length)?;
    bench_run::bench(rt, slices::front(&input, n), true)?;
    Ok(())
}

fn all_cases(rt: &(impl Input + Print), count: usize) -> io::Result<()> {
    for i in 0..count {
        if i > 0 {
            println!(rt; "--")?;
        }
        one_case(rt, next_word(rt)?)?;
    }
    Ok(())
}

fn main(rt: HostRuntime) -> io::Result<()> {
    all_cases(&rt, next_word(&rt)?)
}
