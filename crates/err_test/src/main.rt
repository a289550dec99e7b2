// Writes each of the 26 diagnostics on hand-made inputs, one after the other into one pair of buffers, and prints the records with their messages.
// Input and expected output are made by oracle/err_test/make_err_test.py: the Rust's own answers to scripts that raise these diagnostics.
// The input: six little-endian words, the lengths of the parts; then the script text, the library text, the words of the types buffer, of the
// library's functions, of lists, and of the cases, eight to a case: the code and the parameters of its function.
#![tactic(auto)]

use err::{CallName, Counts};
use err_arguments::{arg_mismatch, slot_conflict, slot_void};
use err_calls::{call_through_field, missing_package, undefined_in_package, undefined_own};
use err_names::{
    bad_condition, bad_return, defined_already, empty_import, let_void, match_cases, no_binding,
    no_import,
};
use err_values::{
    bad_cast, bad_unary, empty_array, incompatible, members_differ, no_field, no_record,
    redundant_cast, unsupported,
};
use ptype::Types;
use slices::part;
use std::io;
use tok::{Span, Texts, little_endian};

// How much is read of the input, and how many bytes of messages are lent.
const LARGE: usize = 65_536;

// The kind of a diagnostic's first word.
const DIAGNOSTIC: u32 = 13;

// Reading the input.

// The words from a place on, as many as there is room for; bytes past the end count as 0, also those of a word that is cut off.
fn fill(out: &mut [u32], s: &[u8], at: usize) {
    for (i, w) in out.iter_mut().enumerate() {
        *w = little_endian(s, at % 65_536 + 4 * (i % 65_536));
    }
}

// Cases.

// A code and its parameters.
#[derive(Clone, Copy)]
struct Case {
    code: u32,
    a: u32,
    b: u32,
    c: u32,
    d: u32,
    e: u32,
    f: u32,
    g: u32,
}

// A package that is 0 is none.
fn callee(pkg: u32, name: u32) -> CallName {
    if pkg == 0 {
        return CallName::Own(name);
    }
    CallName::OfPackage(pkg, name)
}

fn case_of(words: &[u32]) -> Case {
    Case {
        code: tok::word_at(words, 0),
        a: tok::word_at(words, 1),
        b: tok::word_at(words, 2),
        c: tok::word_at(words, 3),
        d: tok::word_at(words, 4),
        e: tok::word_at(words, 5),
        f: tok::word_at(words, 6),
        g: tok::word_at(words, 7),
    }
}

fn span(start: u32, len: u32) -> Span {
    Span {
        start: start as usize,
        len: len as usize,
    }
}

// What the parameters of cases speak of: types, the words of the library's functions, and lists.
#[derive(Drop)]
struct Sources<'a> {
    types: Types<'a>,
    functions: &'a [u32],
    lists: &'a [u32],
}

fn argument_count(
    diagnostics: &mut [u32],
    messages: &mut [u8],
    counts: Counts,
    texts: &Texts,
    c: Case,
) -> Option<Counts> {
    let callee = callee(c.d, c.e);
    let (taken, given) = (c.b as usize, c.c as usize);
    err_calls::argument_count(
        diagnostics,
        messages,
        counts,
        texts,
        c.a,
        callee,
        taken,
        given,
    )
}

fn no_specialisation(
    diagnostics: &mut [u32],
    messages: &mut [u8],
    counts: Counts,
    from: &Sources,
    c: Case,
) -> Option<Counts> {
    err_calls::no_specialisation_at(
        diagnostics,
        messages,
        counts,
        &from.types,
        c.a,
        callee(c.b, c.c),
        part(from.lists, c.d as usize, c.e as usize),
        from.functions,
        part(from.lists, c.f as usize, c.g as usize),
    )
}

// The three of one argument.
fn of_argument(
    diagnostics: &mut [u32],
    messages: &mut [u8],
    counts: Counts,
    types: &Types,
    c: Case,
) -> Option<Counts> {
    let at = span(c.a, c.b);
    let to = callee(c.f, c.g);
    match c.code {
        20 => arg_mismatch(diagnostics, messages, counts, types, at, to, c.c, c.d, c.e),
        21 => slot_conflict(diagnostics, messages, counts, types, at, to, c.c, c.d, c.e),
        _ => {
            let to = callee(c.d, c.e);
            slot_void(diagnostics, messages, counts, types.texts, at, to, c.c)
        }
    }
}

// The diagnostic of a case, by its code. Each that takes few parameters has its line; of the others a small function reads them.
fn told(
    diagnostics: &mut [u32],
    messages: &mut [u8],
    counts: Counts,
    from: &Sources,
    c: Case,
) -> Option<Counts> {
    let types = &from.types;
    let texts = types.texts;
    let at = span(c.a, c.b);
    match c.code {
        1 => empty_array(diagnostics, messages, counts, c.a),
        2 => members_differ(diagnostics, messages, counts, types, at, c.c, c.d),
        3 => no_binding(diagnostics, messages, counts, texts, c.a),
        4 => unsupported(diagnostics, messages, counts, types, c.a, c.b, c.c),
        5 => incompatible(diagnostics, messages, counts, types, c.a, c.b, c.c, c.d),
        6 => bad_unary(diagnostics, messages, counts, types, c.a, c.b, c.c),
        7 => let_void(diagnostics, messages, counts, c.a),
        8 => defined_already(diagnostics, messages, counts, texts, c.a),
        9 => bad_return(diagnostics, messages, counts, types, c.a, c.b, c.c, c.d),
        10 => redundant_cast(diagnostics, messages, counts, types, c.a, c.b),
        11 => bad_cast(diagnostics, messages, counts, types, c.a, c.b, c.c),
        12 => no_record(diagnostics, messages, counts, types, c.a, c.b),
        13 => no_field(diagnostics, messages, counts, types, c.a, c.b),
        14 => call_through_field(diagnostics, messages, counts, c.a),
        15 => missing_package(diagnostics, messages, counts, texts, c.a),
        16 => undefined_in_package(diagnostics, messages, counts, texts, c.a, c.b),
        17 => undefined_own(diagnostics, messages, counts, texts, c.a),
        18 => no_specialisation(diagnostics, messages, counts, from, c),
        19 => argument_count(diagnostics, messages, counts, texts, c),
        20..=22 => of_argument(diagnostics, messages, counts, types, c),
        23 => bad_condition(diagnostics, messages, counts, types, c.a, c.b),
        24 => match_cases(diagnostics, messages, counts, types, c.a, c.b, c.c),
        25 => empty_import(diagnostics, messages, counts, c.a),
        26 => no_import(diagnostics, messages, counts, texts, c.a),
        _ => None,
    }
}

// Printing.

fn print_diagnostic(rt: &impl Print, record: &[u32], messages: &[u8]) -> io::Result<()> {
    let head = tok::word_at(record, 0);
    if tok::kind(head) != DIAGNOSTIC {
        return println!(rt; "no diagnostic");
    }
    let start = tok::word_at(record, 3) as usize;
    let len = tok::word_at(record, 4) as usize;
    let primary = tok::word_at(record, 5) as usize;
    let (code, from, to) = (
        tok::payload(head),
        tok::word_at(record, 1),
        tok::word_at(record, 2),
    );
    print!(rt; "diag {code} {from} {to} ")?;
    rt.write_all(part(messages, start, len))?;
    println!(rt;)?;
    if primary != 0 {
        print!(rt; "primary ")?;
        rt.write_all(part(messages, start + len, primary))?;
        println!(rt;)?;
    }
    Ok(())
}

// The cases, one after the other, and then what was told; a case that is refused says so.
fn run(rt: &impl Print, from: &Sources, cases: &[u32], count: usize) -> io::Result<()> {
    let mut diagnostics = [0u32; 1536];
    let mut messages = [0u8; LARGE];
    let mut counts = Counts {
        diagnostics: 0,
        bytes: 0,
    };
    for k in 0..count {
        let case = case_of(part(cases, 8 * (k % 65_536), 8));
        match told(&mut diagnostics, &mut messages, counts, from, case) {
            Some(told) => counts = told,
            None => rt.write_all(b"refused 9\n")?,
        }
    }
    for record in diagnostics.chunks_exact(6).take(counts.diagnostics) {
        print_diagnostic(rt, record, &messages)?;
    }
    Ok(())
}

// Refusal 9: an empty array's diagnostic in buffers of so many words and bytes, after so many diagnostics and bytes. A row begins with what is tried.
fn room(
    rt: &impl Print,
    tried: &str,
    words: usize,
    bytes: usize,
    told: usize,
    used: usize,
) -> io::Result<()> {
    let mut diagnostics = [0u32; 2000];
    let mut messages = [0u8; 70_000];
    let last = words.min(2000);
    let end = bytes.min(70_000);
    let counts = Counts {
        diagnostics: told,
        bytes: used,
    };
    let r = empty_array(&mut diagnostics[..last], &mut messages[..end], counts, 0);
    let answer = if r.is_some() { "told" } else { "refused" };
    println!(rt; "{tried} {answer}")
}

// Buffers that just hold it, and smaller ones.
fn room_lent(rt: &impl Print) -> io::Result<()> {
    room(rt, "words 6", 6, 59, 0, 0)?;
    room(rt, "words 5", 5, 59, 0, 0)?;
    room(rt, "bytes 59", 6, 59, 0, 0)?;
    room(rt, "bytes 58", 6, 58, 0, 0)
}

// The limits of document 01, in larger buffers.
fn room_at_limits(rt: &impl Print) -> io::Result<()> {
    room(rt, "diagnostics 256", 2000, 70_000, 255, 0)?;
    room(rt, "diagnostics 257", 2000, 70_000, 256, 0)?;
    room(rt, "limit 65536", 2000, 70_000, 0, 65_477)?;
    room(rt, "limit 65537", 2000, 70_000, 0, 65_478)
}

fn parts(rt: &impl Print, input: &[u8]) -> io::Result<()> {
    let script = little_endian(input, 0) as usize;
    let library = little_endian(input, 4) as usize;
    let types = little_endian(input, 8) as usize;
    let functions = little_endian(input, 12) as usize;
    let lists = little_endian(input, 16) as usize;
    let cases = little_endian(input, 20) as usize;
    let mut words = [0u32; 2048];
    fill(&mut words, input, 24 + script + library);
    let texts = Texts {
        script: part(input, 24, script),
        library: part(input, 24 + script, library),
    };
    let from = Sources {
        types: Types {
            words: part(&words, 0, types),
            texts: &texts,
        },
        functions: part(&words, types, functions),
        lists: part(&words, types + functions, lists),
    };
    let list = part(&words, types + functions + lists, cases);
    run(rt, &from, list, cases / 8)
}

fn main(rt: HostRuntime) -> io::Result<()> {
    let mut input = [0u8; LARGE];
    let n = commands::read_full(&rt, &mut input)?;
    parts(&rt, part(&input, 0, n))?;
    room_lent(&rt)?;
    room_at_limits(&rt)
}
