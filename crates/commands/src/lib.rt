// The commands by which a program is told its cases: four lists and the lengths of all that it lends, of each case only the difference to the
// one before it. oracle/replay/README.md says what each command does. What is told past the end of a list is left out.
#![tactic(auto)]

ghost use Rattle.std.specs.Prelude.{◌≡◌, ℕ, ◌+◌, ◌%◌, ◌^◌, ◌<◌, ◌≤◌, min, List, length, take, slice_index, slice_set, IfOk};
ghost use Rattle.commands.specs.Words.{CommandIn, SomeCommand};
ghost use Rattle.commands.specs.Changes.{whole, low_byte, filled, four_bytes, with_registers, patterned, fill_of, data_of, changed};
ghost use Rattle.commands.specs.Becoming.{lists_of, Becomes};
ghost use Rattle.commands.specs.Printed.{NumberBytes, RefusedBytes};

use display::Writer;
use std::io;
use std::io::Read;
use tok::set_item;

// Registers: the lengths of the four lists, then of the six lent buffers, ..
pub const SCRIPT: usize = 0;

pub const IMAGE: usize = 1;

pub const TEXT: usize = 2;

pub const LIBRARY: usize = 3;

pub const SLOTS: usize = 4;

pub const FUNCTIONS: usize = 5;

pub const TYPES: usize = 6;

pub const DIAGNOSTICS: usize = 7;

pub const MESSAGES: usize = 8;

pub const SCRATCH: usize = 9;
// .. what the next fill is to do, ..
const LIST: usize = 10;

const START: usize = 11;

const COUNT: usize = 12;
// .. and how many cases were run. The registers after it are the program's own.
pub const CASES: usize = 13;

// The four lists that a case is made of, and the registers, which say among others how much of each list counts.
#[derive(Drop)]
pub struct Lists<'a> {
    pub script: &'a mut [u8],
    pub image: &'a mut [u32],
    pub text: &'a mut [u8],
    pub library: &'a mut [u32],
    pub registers: &'a mut [u32],
}

// Reading commands.

// What commands do: the next fill is told, a list filled, a register set, ..
const PATTERN: u32 = 1;

const FILL: u32 = 2;

const LENGTH: u32 = 3;
// .. a case run, which is the program's, ..
pub const CASE: u32 = 4;
// .. and from here on elements of a list are given, the list being the command's number less this.
const DATA: u32 = 8;

#[derive(Clone, Copy)]
pub struct Command {
    pub op: u32,
    pub a: u32,
    pub b: u32,
    pub c: u32,
}

// The four words of a command.
pub fn command_in(bytes: &[u8]) -> Command
    ensures { CommandIn bytes.now result.op result.a result.b result.c }
{
    Command {
        op: tok::little_endian(bytes, 0),
        a: tok::little_endian(bytes, 4),
        b: tok::little_endian(bytes, 8),
        c: tok::little_endian(bytes, 12),
    }
}

// Reads until the buffer is full or the input ends, and answers how many bytes it put at the buffer's start.
pub fn read_full(rt: &impl Input, bytes: &mut [u8]) -> io::Result<usize>
    ensures { IfOk result (λ n. n ≤ length bytes.new) }
{
    let mut reader = rt.reader();
    let mut done = 0;
    while done < bytes.len() {
        let n = reader.read(&mut bytes[done..])?;
        if n == 0 {
            break;
        }
        done += n;
    }
    Ok(done)
}

// The next command of the input; all zero past its end. Which bytes a read hands out, its contract leaves open: what is said here is only that the
// four words are those of sixteen bytes.
pub fn next_command(rt: &impl Input) -> io::Result<Command>
    ensures { IfOk result (λ c. SomeCommand c.op c.a c.b c.c) }
{
    let mut bytes = [0u8; 16];
    read_full(rt, &mut bytes)?;
    Ok(command_in(&bytes))
}

// Writing into lists.

// What an element of a list holds of a value.
pub trait Element: Copy {
    ghost held: { ℕ → Self };

    fn of(w: u32) -> Self
        ensures { result ≡ held w };
}

impl Element for u32 {
    ghost held = { whole };

    fn of(w: u32) -> u32 {
        w
    }
}

impl Element for u8 {
    ghost held = { low_byte };

    fn of(w: u32) -> u8 {
        (w % 0x100) as u8
    }
}

pub fn put(out: &mut [u32], i: usize, w: u32)
    ensures { out.new ≡ slice_set out.old i w }
{
    set_item(out, i, w);
}

// Four bytes of a word, from a place on.
#[tactic(auto, unfolding(crate::specs::Changes::four_bytes))]
fn put_bytes(out: &mut [u8], at: usize, w: u32)
    requires { at < 2 ^ 33 }
    ensures { out.new ≡ four_bytes out.old at w }
{
    let [a, b, c, d] = w.to_le_bytes();
    set_item(out, at, a);
    set_item(out, at + 1, b);
    set_item(out, at + 2, c);
    set_item(out, at + 3, d);
}

// Every `stride`-th element from `start` on, `count` of them: `value`, `value + step`, ..
#[derive(Clone, Copy)]
pub struct Fill {
    pub stride: usize,
    pub start: usize,
    pub count: usize,
    pub value: u32,
    pub step: u32,
}

impl Fill {
    pub fn apply<T: Element>(self, out: &mut [T])
        ensures { out.new ≡ filled T.held out.old self.stride self.start self.count self.value self.step }
    {
        let mut at = self.start;
        let mut w = self.value;
        for _ in 0..self.count {
            set_item(out, at, T::of(w));
            at = at.wrapping_add(self.stride);
            w = w.wrapping_add(self.step);
        }
    }
}

// What the registers hold.

pub fn register(registers: &[u32], which: usize) -> usize
    ensures { result ≡ slice_index registers.now which }
{
    tok::word_at(registers, which) as usize
}

// A register that counts is one higher.
pub fn counted(registers: &mut [u32], which: usize)
    ensures { registers.new ≡ slice_set registers.old which ((slice_index registers.old which + 1) % 2 ^ 32) }
{
    let n = tok::word_at(registers, which);
    put(registers, which, n.wrapping_add(1));
}

// A length, and no more than there is.
pub fn lent(registers: &[u32], which: usize, most: usize) -> usize
    ensures { result ≡ min (slice_index registers.now which) most }
{
    register(registers, which).min(most)
}

// As much of a list as its length says.
pub fn front<'a, T>(list: &'a [T], registers: &[u32], which: usize) -> &'a [T]
    ensures { result.now ≡ take (slice_index registers.now which) list.now }
{
    slices::front(list, register(registers, which))
}

// What commands do.

fn two_words(out: &mut [u32], at: u32, a: u32, b: u32)
    ensures { out.new ≡ slice_set (slice_set out.old at a) (at + 1) b }
{
    let i = at as usize;
    put(out, i, a);
    put(out, i + 1, b);
}

fn eight_bytes(out: &mut [u8], at: u32, a: u32, b: u32)
    ensures { out.new ≡ four_bytes (four_bytes out.old at a) (at + 4) b }
{
    let i = at as usize;
    put_bytes(out, i, a);
    put_bytes(out, i + 4, b);
}

impl<'a> Lists<'a> {
    fn register(&self, which: usize) -> usize
        ensures { result ≡ slice_index self.now.registers.now which }
    {
        register(self.registers, which)
    }

    fn pattern(&mut self, c: Command)
        ensures { Becomes self.old self.new (with_registers (lists_of self.old) (patterned c.a c.b c.c self.old.registers.now)) }
    {
        put(self.registers, LIST, c.a);
        put(self.registers, START, c.b);
        put(self.registers, COUNT, c.c);
    }

    fn fill(&mut self, c: Command)
        ensures { Becomes self.old self.new (fill_of c.a c.b (lists_of self.old)) }
    {
        let list = self.register(LIST);
        let fill = Fill {
            stride: list / 4,
            start: self.register(START),
            count: self.register(COUNT),
            value: c.a,
            step: c.b,
        };
        match list % 4 {
            SCRIPT => fill.apply(self.script),
            IMAGE => fill.apply(self.image),
            TEXT => fill.apply(self.text),
            _ => fill.apply(self.library),
        }
    }

    fn put_data(&mut self, list: usize, c: Command)
        ensures { Becomes self.old self.new (data_of list c.a c.b c.c (lists_of self.old)) }
    {
        match list {
            SCRIPT => eight_bytes(self.script, c.a, c.b, c.c),
            IMAGE => two_words(self.image, c.a, c.b, c.c),
            TEXT => eight_bytes(self.text, c.a, c.b, c.c),
            _ => two_words(self.library, c.a, c.b, c.c),
        }
    }

    // Does what a command says of lists and lengths; other commands are the program's.
    pub fn change(&mut self, c: Command)
        ensures { Becomes self.old self.new (changed c.op c.a c.b c.c (lists_of self.old)) }
    {
        match c.op {
            PATTERN => self.pattern(c),
            FILL => self.fill(c),
            LENGTH => put(self.registers, c.a as usize, c.b),
            DATA.. => self.put_data((c.op - DATA) as usize, c),
            _ => {}
        }
    }
}

// Printing. Each function hands bytes to the system and answers how many: where it writes them, no contract says.

pub fn print(rt: &impl Print, s: &[u8]) -> io::Result<usize>
    ensures { IfOk result (λ n. n ≡ length s.now) }
{
    rt.write_all(s)?;
    Ok(s.len())
}

// How many digits a number of 64 bits can have.
const MOST_DIGITS: usize = 20;

// A number in decimal.
pub fn print_number(rt: &impl Print, n: usize) -> io::Result<usize>
    ensures { IfOk result (λ k. NumberBytes n k) }
{
    let mut digits = [0; MOST_DIGITS];
    let mut out = Writer::new(&mut digits);
    let _ = display::put_digits(&mut out, MOST_DIGITS, n);
    let k = out.at;
    print(rt, &digits[..k])
}

// " refused ", number and place.
pub fn print_refused(rt: &impl Print, number: usize, place: usize) -> io::Result<usize>
    ensures { IfOk result (λ n. RefusedBytes number place n) }
{
    let a = print(rt, b" refused ")?;
    let b = print_number(rt, number)?;
    let c = print(rt, b" ")?;
    let d = print_number(rt, place)?;
    Ok(a + b + c + d)
}

// A case's line begins with its number, from 0; the register that counts cases is one higher.
pub fn begin_line(rt: &impl Print, registers: &mut [u32]) -> io::Result<usize>
    ensures number_bytes { IfOk result (λ n. NumberBytes (slice_index registers.old 13) n) }
    ensures registers_after { registers.new ≡ slice_set registers.old 13 ((slice_index registers.old 13 + 1) % 2 ^ 32) }
{
    let n = print_number(rt, register(registers, CASES));
    counted(registers, CASES);
    n
}
