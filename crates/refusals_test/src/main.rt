// Runs refusals 1 to 6 on damaged inputs and on inputs at the limits of document 01, and prints each answer and how many are as expected.
// Input and expected output are made by oracle/refusals/make_cases.py, whose answers are those of oracle/refusals/refusals.py, a second reading
// of document 01. The input is a run of commands of four little-endian words: oracle/refusals/stream.py says what each does.
#![tactic(auto)]

use commands::{CASES, Command, Lists};
use ending::Refused;
use std::io;

// The program's own register: how many cases were answered as expected.
const AGREE: usize = 14;

// Cases.

// What is found of the lists, with buffers as long as the registers say, as document 01's table numbers it.
fn found(lists: &Lists, words: &[u32], bytes: &[u8]) -> Result<(), Refused> {
    let registers: &[u32] = lists.registers;
    refuse::refuse(
        commands::front(lists.script, registers, commands::SCRIPT),
        commands::front(lists.image, registers, commands::IMAGE),
        commands::front(lists.text, registers, commands::TEXT),
        commands::front(lists.library, registers, commands::LIBRARY),
        commands::front(words, registers, commands::SLOTS),
        commands::front(words, registers, commands::FUNCTIONS),
        commands::front(words, registers, commands::TYPES),
        commands::front(words, registers, commands::DIAGNOSTICS),
        commands::front(bytes, registers, commands::MESSAGES),
        commands::front(words, registers, commands::SCRATCH),
    )?;
    Ok(())
}

fn print_answer(rt: &impl Print, got: Result<(), Refused>) -> io::Result<()> {
    match got {
        Ok(()) => print!(rt; " accepted")?,
        Err(refused) => {
            commands::print_refused(rt, refused.number as usize, refused.place)?;
        }
    }
    println!(rt;)
}

// Whether a command expects the answer: it tells number and place, both 0 where none of the six comes.
fn agrees(got: Result<(), Refused>, c: Command) -> bool {
    match got {
        Ok(()) => c.a == 0 && c.b == 0,
        Err(refused) => refused.number == c.a && refused.place == c.b as usize,
    }
}

// One case's answer is printed, and held to the expected one.
fn told(
    rt: &impl Print,
    registers: &mut [u32],
    got: Result<(), Refused>,
    c: Command,
) -> io::Result<()> {
    commands::begin_line(rt, registers)?;
    print_answer(rt, got)?;
    if agrees(got, c) {
        commands::counted(registers, AGREE);
    }
    Ok(())
}

fn obey(
    rt: &impl Print,
    lists: &mut Lists,
    words: &[u32],
    bytes: &[u8],
    c: Command,
) -> io::Result<()> {
    if c.op == commands::CASE {
        let got = found(lists, words, bytes);
        return told(rt, lists.registers, got, c);
    }
    lists.change(c);
    Ok(())
}

fn main(rt: HostRuntime) -> io::Result<()> {
    let mut script = [0u8; 65_552];
    let mut image = [0u32; 8_208];
    let mut text = [0u8; 65_552];
    let mut library = [0u32; 8_208];
    let mut registers = [0u32; 16];
    let mut lists = Lists {
        script: &mut script,
        image: &mut image,
        text: &mut text,
        library: &mut library,
        registers: &mut registers,
    };
    let words = [0u32; 32_768];
    let bytes = [0u8; 65_536];
    let first = commands::next_command(&rt)?;
    for _ in 0..first.a {
        let c = commands::next_command(&rt)?;
        obey(&rt, &mut lists, &words, &bytes, c)?;
    }
    println!(rt;
        "{} of {} agree",
        commands::register(lists.registers, AGREE),
        commands::register(lists.registers, CASES)
    )
}
