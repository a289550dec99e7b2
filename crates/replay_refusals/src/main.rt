// Runs the whole check on stored cases, with lent buffers of many lengths, and prints each answer with a sum of what every lent buffer holds
// afterwards: a refusal before the walk leaves them as they were, one in the walk leaves zeros, an answer changes only what it is to write.
// oracle/replay/make_refusals.py makes input and expected output, and oracle/replay/README.md says their form.
#![tactic(auto)]

ghost use Rattle.std.specs.Prelude.{◌<◌};

use commands::{Command, Element, Fill, Lists};
use ending::Checked;
use std::io;

// The program's own command: what the lent buffers hold before a case.
const LENT: u32 = 5;

// The program's own registers: the first element of each lent buffer before a case, and what each further one is higher.
const VALUE: usize = 14;

const STEP: usize = 15;

// Sums.

// A sum with one element more. Any change of an element, or of their order, is likely to show in it.
fn added(sum: u64, x: u32) -> u64
    requires { sum < 4294967291 }
    ensures { result < 4294967291 }
{
    (sum * 65_599 + u64::from(x)) % 4_294_967_291
}

fn sum<T: Copy>(s: &[T]) -> u64
where
    u32: From<T>,
{
    let mut sum = 0;
    for x in s {
        sum = added(sum, u32::from(*x));
    }
    sum
}

// Printing.

fn print_sums(
    rt: &impl Print,
    slots: &[u32],
    functions: &[u32],
    types: &[u32],
    diagnostics: &[u32],
    messages: &[u8],
    scratch: &[u32],
) -> io::Result<()> {
    println!(rt;
        " {} {} {} {} {} {}",
        sum(slots),
        sum(functions),
        sum(types),
        sum(diagnostics),
        sum(messages),
        sum(scratch)
    )
}

fn print_answer(rt: &impl Print, checked: Checked) -> io::Result<()> {
    match checked {
        Ok(counts) => print!(rt;
            " answered {} {} {} {}",
            counts.function_words, counts.type_words, counts.diagnostics, counts.message_bytes
        ),
        Err(refused) => {
            commands::print_refused(rt, refused.number as usize, refused.place)?;
            Ok(())
        }
    }
}

// Cases.

fn fill<T: Element>(items: &mut [T], held: Fill) {
    let fill = Fill {
        count: items.len(),
        ..held
    };
    fill.apply(items);
}

// What the lent buffers hold beforehand, so that what the check leaves alone is seen.
fn fill_lent(
    slots: &mut [u32],
    functions: &mut [u32],
    types: &mut [u32],
    diagnostics: &mut [u32],
    messages: &mut [u8],
    scratch: &mut [u32],
    held: Fill,
) {
    fill(slots, held);
    fill(functions, held);
    fill(types, held);
    fill(diagnostics, held);
    fill(messages, held);
    fill(scratch, held);
}

// One case, of as much of the lists as the registers tell, with all that it is lent: its answer, and the sums of what is left.
fn case(
    rt: &impl Print,
    lists: &Lists,
    slots: &mut [u32],
    functions: &mut [u32],
    types: &mut [u32],
    diagnostics: &mut [u32],
    messages: &mut [u8],
    scratch: &mut [u32],
) -> io::Result<()> {
    let registers: &[u32] = lists.registers;
    let held = Fill {
        stride: 1,
        start: 0,
        count: 0,
        value: tok::word_at(registers, VALUE),
        step: tok::word_at(registers, STEP),
    };
    fill_lent(
        slots,
        functions,
        types,
        diagnostics,
        messages,
        scratch,
        held,
    );
    let checked = checker::check(
        commands::front(lists.script, registers, commands::SCRIPT),
        commands::front(lists.image, registers, commands::IMAGE),
        commands::front(lists.text, registers, commands::TEXT),
        commands::front(lists.library, registers, commands::LIBRARY),
        slots,
        functions,
        types,
        diagnostics,
        messages,
        scratch,
    );
    print_answer(rt, checked)?;
    print_sums(rt, slots, functions, types, diagnostics, messages, scratch)
}

// The case that the registers tell, with buffers of its own as long as they say.
fn told_case(rt: &impl Print, lists: &Lists) -> io::Result<()> {
    let mut slots = [0u32; 4_112];
    let mut functions = [0u32; 8_208];
    let mut types = [0u32; 8_208];
    let mut diagnostics = [0u32; 1_568];
    let mut messages = [0u8; 65_552];
    let mut scratch = [0u32; 32_768];
    let registers: &[u32] = lists.registers;
    let a = commands::lent(registers, commands::SLOTS, slots.len());
    let b = commands::lent(registers, commands::FUNCTIONS, functions.len());
    let c = commands::lent(registers, commands::TYPES, types.len());
    let d = commands::lent(registers, commands::DIAGNOSTICS, diagnostics.len());
    let e = commands::lent(registers, commands::MESSAGES, messages.len());
    let f = commands::lent(registers, commands::SCRATCH, scratch.len());
    case(
        rt,
        lists,
        &mut slots[..a],
        &mut functions[..b],
        &mut types[..c],
        &mut diagnostics[..d],
        &mut messages[..e],
        &mut scratch[..f],
    )
}

fn obey(rt: &impl Print, lists: &mut Lists, c: Command) -> io::Result<()> {
    match c.op {
        commands::CASE => {
            commands::begin_line(rt, lists.registers)?;
            told_case(rt, lists)?;
        }
        LENT => {
            commands::put(lists.registers, VALUE, c.a);
            commands::put(lists.registers, STEP, c.b);
        }
        _ => lists.change(c),
    }
    Ok(())
}

fn main(rt: HostRuntime) -> io::Result<()> {
    let mut script = [0u8; 65_552];
    let mut image = [0u32; 8_208];
    let mut text = [0u8; 65_552];
    let mut library = [0u32; 8_208];
    let mut registers = [0u32; 16];
    let mut lists = Lists {
        script: &mut script,
        image: &mut image,
        text: &mut text,
        library: &mut library,
        registers: &mut registers,
    };
    let first = commands::next_command(&rt)?;
    for _ in 0..first.a {
        let c = commands::next_command(&rt)?;
        obey(&rt, &mut lists, c)?;
    }
    Ok(())
}
