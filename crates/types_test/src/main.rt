// Runs the type layer on hand-made types, as commands of the input say: depth, equality, texts, adding, binding slots, putting types for slots. Every
// kind of type, names of 255 bytes and of none, types of depth 32, 33 and more, towers of records that each hold the last one twice, every parameter
// with every argument, conflicts and Void, and buffers that are too short.
// The input is made by oracle/types_test/make_types_test.py, which says its form. The expected output is that of two Rust programs that do the same
// with the original's `Type`, oracle/src/bin/ptype_test.rs and then types_test.rs; they say what each row means.
// One interpreter of few commands, and not a function for each row, since a check's cost goes with the calls that lend a buffer and with the locals
// of their functions, structs and enums first. So its state is one struct, the lists and how many pairs of them count, beside the types.
#![tactic(auto)]

use add::{AddError, Added, Arena};
use commands::Command;
use display::{Full, Writer};
use ptype::Types;
use slots::{Bind, BindError, Bindings};
use std::io;
use tok::Texts;

// What a command does.
#[derive(Clone, Copy)]
enum Operation {
    Pair,
    Copy,
    Option,
    Array,
    Open,
    Close,
    Apply,
    Bound,
    Show,
    Depth,
    Ask,
    List,
    Bind,
    Count,
    Print,
}

// By the top four bits of a command's first word; a number that is none's only prints.
impl From<u32> for Operation {
    fn from(k: u32) -> Operation {
        match k {
            0 => Operation::Pair,
            1 => Operation::Copy,
            2 => Operation::Option,
            3 => Operation::Array,
            4 => Operation::Open,
            5 => Operation::Close,
            6 => Operation::Apply,
            7 => Operation::Bound,
            8 => Operation::Show,
            9 => Operation::Depth,
            10 => Operation::Ask,
            11 => Operation::List,
            12 => Operation::Bind,
            13 => Operation::Count,
            _ => Operation::Print,
        }
    }
}

// What a word that is shown stands for.
#[derive(Clone, Copy)]
enum Shown {
    Type,
    Number,
    Signature,
    Arguments,
    Types,
}

impl From<u32> for Shown {
    fn from(k: u32) -> Shown {
        match k {
            0 => Shown::Type,
            1 => Shown::Number,
            2 => Shown::Signature,
            3 => Shown::Arguments,
            _ => Shown::Types,
        }
    }
}

// What is printed of what was written: the text itself, or where it is long as much as by Sum; its length, a number that any single wrong byte
// changes, and its front; its length alone; or the first bytes of the buffer, whatever was written.
#[derive(Clone, Copy)]
enum Printed {
    Text,
    Sum,
    Length,
    Buffer,
}

impl From<u32> for Printed {
    fn from(k: u32) -> Printed {
        match k {
            1 => Printed::Sum,
            2 => Printed::Length,
            3 => Printed::Buffer,
            _ => Printed::Text,
        }
    }
}

// What is asked of types: whether Unknown or a slot stands in one, whether two are equal, whether two fields have the same word as type, whether the
// types of a part of the words are shallow.
#[derive(Clone, Copy)]
enum Question {
    HasUnknown,
    HasSlot,
    Same,
    SameField,
    Shallow,
}

impl From<u32> for Question {
    fn from(k: u32) -> Question {
        match k {
            0 => Question::HasUnknown,
            1 => Question::HasSlot,
            2 => Question::Same,
            3 => Question::SameField,
            _ => Question::Shallow,
        }
    }
}

// What is answered: names in the library text, so that no function here has a text of its own.
const DONE: u32 = 0xC1011005;

const CONFLICT: u32 = 0xC1012009;

const VOID: u32 = 0xC1013005;

const FULL: u32 = 0xC1014005;

const PUT: u32 = 0xC1015004;

const DEEP: u32 = 0xC1016005;

const UNBOUND: u32 = 0xC1017002;

// The lists are the words that stand in one struct with how many pairs count. In them, after eight words for pairs: how many words are lent to what
// adds types, and how many of them were used before.
const LENT: usize = 8;

const BEFORE: usize = 9;

const ROOM: usize = 100_000;

// Parts and numbers.

// A part of a list, told as names are: where it starts, in 16 bits, and in the low 8 its length.
fn part(words: &[u32], told: u32) -> &[u32] {
    slices::part(
        words,
        (told / 0x100 % 0x1_0000) as usize,
        (told % 0x100) as usize,
    )
}

fn sum(text: &[u8]) -> usize {
    let mut s = 0usize;
    for b in text {
        s = s % 4294967291 * 31 + *b as usize;
    }
    s
}

// Printing.

fn say(rt: &impl Print, texts: &Texts, name: u32) -> io::Result<()> {
    rt.write_all(tok::name_bytes(texts, name))
}

// A blank and a number.
fn number(rt: &impl Print, n: usize) -> io::Result<()> {
    print!(rt; " {n}")
}

// A blank and the first n bytes.
fn front(rt: &impl Print, text: &[u8], n: usize) -> io::Result<()> {
    print!(rt; " ")?;
    rt.write_all(slices::front(text, n))
}

// Tells of a buffer of which so many bytes were written, or none as there was no room for all.
fn told(
    rt: &impl Print,
    out: &[u8; ROOM],
    texts: &Texts,
    written: Option<usize>,
    printed: Printed,
) -> io::Result<()> {
    if let Printed::Buffer = printed {
        return front(rt, out, 50);
    }
    let Some(n) = written else {
        return say(rt, texts, FULL);
    };
    match printed {
        Printed::Length => number(rt, n),
        Printed::Text if n <= 640 => front(rt, out, n),
        _ => {
            number(rt, n)?;
            number(rt, sum(slices::front(out, n)))?;
            front(rt, out, n.min(64))
        }
    }
}

// Writes what a word stands for: a type, or a number, or a list that stands behind the types.
fn write(out: &mut Writer, types: &Types, shown: Shown, w: u32) -> Result<(), Full> {
    match shown {
        Shown::Type => display::show_type(out, types, w),
        Shown::Number => out.put_decimal(w as usize),
        Shown::Signature => display::show_signature(out, types, part(types.words, w)),
        Shown::Arguments => display::show_arg_types(out, types, part(types.words, w)),
        Shown::Types => display::show_types(out, types, part(types.words, w)),
    }
}

// How many bytes it wrote, where all had room.
fn written(out: &mut [u8], types: &Types, shown: Shown, w: u32) -> Option<usize> {
    let mut writer = Writer::new(out);
    write(&mut writer, types, shown, w).ok()?;
    Some(writer.at)
}

// Writes into so many bytes of a buffer of dots, and tells of it.
fn show(
    rt: &impl Print,
    types: &Types,
    shown: Shown,
    printed: Printed,
    room: usize,
    w: u32,
) -> io::Result<()> {
    let mut out = [b'.'; ROOM];
    let n = written(&mut out[..room.min(ROOM)], types, shown, w);
    told(rt, &out, types.texts, n, printed)
}

fn text(rt: &impl Print, types: &Types, w: u32) -> io::Result<()> {
    show(rt, types, Shown::Type, Printed::Text, ROOM, w)
}

// Commands that write nothing.

// What a slot is bound to.
fn bound(rt: &impl Print, types: &Types, bindings: &Bindings, slot: u32) -> io::Result<()> {
    match bindings.bound_to(types.texts, slot) {
        Some(w) => text(rt, types, w),
        None => say(rt, types.texts, UNBOUND),
    }
}

fn shallow(types: &[u32], pool: &[u32]) -> bool {
    let mut known = [0u8; 8192];
    add::pool_is_shallow(types, pool, &mut known)
}

fn holds(types: &Types, question: Question, a: u32, b: u32) -> bool {
    let words = types.words;
    match question {
        Question::HasUnknown => ptype::contains_unknown(words, a),
        Question::HasSlot => ptype::contains_slot(words, a),
        Question::Same => ptype::same_type(types, a, b),
        Question::SameField => {
            ptype::field_type(words, a as usize) == ptype::field_type(words, b as usize)
        }
        Question::Shallow => shallow(words, part(words, a)),
    }
}

// Binding.

// What binding answered.
fn answered(rt: &impl Print, types: &Types, r: Bind) -> io::Result<()> {
    match r {
        Ok(()) => say(rt, types.texts, DONE),
        Err(
            BindError::Conflict {
                slot,
                existing,
                new,
            },
        ) => {
            say(rt, types.texts, CONFLICT)?;
            text(rt, types, slot)?;
            text(rt, types, existing)?;
            text(rt, types, new)
        }
        Err(BindError::Void { slot }) => {
            say(rt, types.texts, VOID)?;
            text(rt, types, slot)
        }
        Err(BindError::NoRoom) => say(rt, types.texts, FULL),
    }
}

// Binds slots after the pairs that are there, in so many words. Where they had no room, no pair counts any more.
fn bind(lists: &mut Bindings, types: &Types, expected: u32, provided: u32, room: usize) -> Bind {
    let end = room.min(lists.pairs.len());
    let mut bindings = Bindings {
        pairs: &mut lists.pairs[..end],
        count: lists.count,
    };
    let r = slots::bind_slots(&mut bindings, types, expected, provided);
    lists.count = match r {
        Err(BindError::NoRoom) => 0,
        _ => bindings.count,
    };
    r
}

// Commands that write into the lists: put two words there, bind slots, or say how many pairs count.
fn relist(
    rt: &impl Print,
    types: &Types,
    lists: &mut Bindings,
    operation: Operation,
    c: Command,
) -> io::Result<()> {
    match operation {
        Operation::List => add::set_pair(lists.pairs, c.a as usize, c.b, c.c),
        Operation::Bind => {
            let r = bind(lists, types, c.a, c.b, c.c as usize);
            answered(rt, types, r)?;
        }
        _ => lists.count = c.a as usize,
    }
    Ok(())
}

// Adding.

// What adding answered, where so many words were used before, and a word that it may be the same as.
fn added(rt: &impl Print, types: &Types, r: Added, used: usize, old: u32) -> io::Result<()> {
    match r {
        Ok((w, u)) => {
            say(rt, types.texts, PUT)?;
            number(rt, u.saturating_sub(used))?;
            number(rt, usize::from(w == old))?;
            text(rt, types, w)
        }
        Err(AddError::Full) => say(rt, types.texts, FULL),
        Err(AddError::TooDeep) => say(rt, types.texts, DEEP),
    }
}

fn grow(
    types: &mut [u32],
    bindings: &Bindings,
    texts: &Texts,
    operation: Operation,
    w: u32,
    used: usize,
) -> Added {
    let mut arena = Arena::new(types, used);
    let added = match operation {
        Operation::Option => arena.add_option(w),
        Operation::Array => arena.add_array(w),
        Operation::Open => arena.open_record(w as usize),
        Operation::Close => arena.close_record(w),
        _ => {
            let bound = bindings.bound();
            return apply::apply_slot_binding(arena.words, used, texts, &bound, w);
        }
    };
    arena.answer(added)
}

// Adds to the words that are lent, and tells of it where a word is given.
fn grown(
    rt: &impl Print,
    words: &mut [u32],
    lists: &Bindings,
    texts: &Texts,
    operation: Operation,
    c: Command,
) -> io::Result<()> {
    let end = (tok::word_at(lists.pairs, LENT) as usize).min(words.len());
    let r = grow(
        &mut words[..end],
        lists,
        texts,
        operation,
        c.a,
        c.b as usize,
    );
    if c.c == 0 {
        return Ok(());
    }
    let used = tok::word_at(lists.pairs, BEFORE) as usize;
    added(rt, &Types { words, texts }, r, used, c.c)
}

// Copies a part of the lists to the front of so many words of the types, and tells whether it fits.
fn copy(rt: &impl Print, types: &mut [u32], words: &[u32], lent: usize) -> io::Result<()> {
    let end = lent.min(types.len());
    number(rt, usize::from(add::copy_pool(&mut types[..end], words)))
}

// Commands that only tell of types.
fn tell(
    rt: &impl Print,
    types: &Types,
    lists: &Bindings,
    operation: Operation,
    c: Command,
) -> io::Result<()> {
    match operation {
        Operation::Bound => bound(rt, types, lists, c.a),
        Operation::Show => show(
            rt,
            types,
            Shown::from(c.a % 8),
            Printed::from(c.a / 8),
            c.b as usize,
            c.c,
        ),
        Operation::Depth => print!(rt; "{}", ptype::depth(types.words, c.a)),
        Operation::Ask => print!(rt; "{}", u8::from(holds(types, Question::from(c.c), c.a, c.b))),
        _ => Ok(()),
    }
}

// One command.
fn obey(
    rt: &impl Print,
    words: &mut [u32],
    lists: &mut Bindings,
    texts: &Texts,
    c: Command,
) -> io::Result<()> {
    let operation = Operation::from(tok::kind(c.op));
    match operation {
        Operation::Pair => {
            add::set_pair(words, c.a as usize, c.b, c.c);
            Ok(())
        }
        Operation::Copy => copy(rt, words, part(lists.pairs, c.a), c.b as usize),
        Operation::Option
        | Operation::Array
        | Operation::Open
        | Operation::Close
        | Operation::Apply => grown(rt, words, lists, texts, operation, c),
        Operation::List | Operation::Bind | Operation::Count => {
            relist(rt, &Types { words, texts }, lists, operation, c)
        }
        _ => tell(rt, &Types { words, texts }, lists, operation, c),
    }
}

fn run(rt: &(impl Input + Print), texts: &Texts, commands: usize) -> io::Result<()> {
    let mut types = [0u32; 8448];
    let mut words = [0u32; 256];
    let mut lists = Bindings::new(&mut words);
    for _ in 0..commands {
        let c = commands::next_command(rt)?;
        say(rt, texts, c.op)?;
        obey(rt, &mut types, &mut lists, texts, c)?;
    }
    Ok(())
}

fn main(rt: HostRuntime) -> io::Result<()> {
    let mut script = [0u8; 8192];
    commands::read_full(&rt, &mut script)?;
    let mut library = [0u8; 512];
    commands::read_full(&rt, &mut library)?;
    let first = commands::next_command(&rt)?;
    let texts = Texts {
        script: &script,
        library: &library,
    };
    run(&rt, &texts, first.a as usize)
}
