//! `offsets`: a table text and encoder readings in, bare positions and offsets out.
#![tactic(auto)]

use offset_report::offsets::offsets;
use program_input::read_input;
use std::io;
use std::io::Write;

/// How much of the standard input is read.
const INPUT_LIMIT: usize = 65_536;

fn main(rt: HostRuntime) -> io::Result<()> {
    let input = read_input(&rt, INPUT_LIMIT)?;
    let output = offsets(rt.alloc(), &input)?;
    rt.stdout().write_all(&output)
}
