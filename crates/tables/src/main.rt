//! `tables`: a table text in, the same text out, written again from the sheet that it was read into, or the line of its fault.
#![tactic(auto)]

use program_input::read_input;
use std::io;
use std::io::Write;
use text_law::check::check_table;

/// How much of the standard input is read: more than any table's text.
const INPUT_LIMIT: usize = 65_536;

// Beside the main of `offsets`: one that took the call as a closure would be no shorter.
fn main(rt: HostRuntime) -> io::Result<()> {
    let input = read_input(&rt, INPUT_LIMIT)?;
    let output = check_table(rt.alloc(), &input)?;
    rt.stdout().write_all(&output)
}
