// The printing program (document 01, "Bench rows"): reads a case from standard input and prints its rows.
#![tactic(auto)]

use std::io;

// One byte more than an input may have, so that a longer one is seen to be too long.
const LONGEST: usize = 65_537;

fn main(rt: HostRuntime) -> io::Result<()> {
    let mut input = [0u8; LONGEST];
    let n = commands::read_full(&rt, &mut input)?;
    bench_run::bench(&rt, &input[0..n], false)?;
    Ok(())
}
