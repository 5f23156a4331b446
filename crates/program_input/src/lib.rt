//! The standard input of a program, up to a limit.
#![tactic(auto)]

ghost use Rattle.std.specs.Prelude.{◌≤◌, IfOk, vec_len};

use std::io;
use std::io::Read;

// By hand and not by `read_to_end`, which takes its memory piece by piece and goes on after an interrupted read: here it
// is taken once, the first read asks for all of it, and a read that fails ends the reading.
/// Reads until the input ends or the limit is reached.
pub fn read_input(rt: &HostRuntime, limit: usize) -> io::Result<Vec<u8>>
    ensures { IfOk result (λ input. vec_len input ≤ limit) }
{
    let mut input = vec![in rt.alloc(); 0; limit]?;
    let mut filled = 0;
    let mut stdin = rt.stdin();
    for _ in 0..limit {
        if filled >= input.len() {
            break;
        }
        let count = stdin.read(&mut input[filled..])?;
        if count == 0 {
            break;
        }
        filled += count;
    }
    input.truncate(filled);
    Ok(input)
}
