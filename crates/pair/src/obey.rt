//! A call, handed to a machine.
ghost use Rattle.std.specs.Prelude.{◌≡◌, MatchResult};
ghost use Rattle.machine.specs.Machines.{mill_of};
ghost use Rattle.mill.specs.Asked.{command_of, reply_of};
ghost use Rattle.mill.specs.Runs.{answer, next, cycle as cycle_command};

use machine::machine::Machine;
use mill::answer::Answer;
use mill::call::Call;
use source::source::Source;
use std::alloc::{AllocError, Global};

// A cycle, with a row of its own for the outputs.
fn cycle<S: Source>(
    heap: Global,
    machine: &mut Machine<S>,
    row: &[u32],
    places: usize,
) -> Result<Answer, AllocError>
    ensures { let old = mill_of S.Source.means machine.old in
        let new = mill_of S.Source.means machine.new in
        MatchResult result
        (λ a. (reply_of a ≡ answer (cycle_command row.now places) old)
        × (new ≡ next (cycle_command row.now places) old))
        (λ e. new ≡ old) }
{
    let mut out = vec![in heap; 0i32; places]?;
    let answer = machine.cycle(row, out.as_mut_slice());
    Ok(Answer::Outputs(answer.map(|()| out)))
}

/// Hands a call to a machine. Only a cycle takes memory, for its outputs; where there is none the machine is as it was.
pub fn obey<S: Source>(
    heap: Global,
    machine: &mut Machine<S>,
    call: Call<'_>,
) -> Result<Answer, AllocError>
    ensures { let old = mill_of S.Source.means machine.old in
        let new = mill_of S.Source.means machine.new in
        MatchResult result
        (λ a. (reply_of a ≡ answer (command_of call.entry) old)
        × (new ≡ next (command_of call.entry) old))
        (λ e. new ≡ old) }
{
    match call {
        Call::SetGains(axis, settings) => Ok(Answer::Done(machine.set_gains(axis, settings))),
        Call::Close(axis) => Ok(Answer::Done(machine.close(axis))),
        Call::Kill(axis) => Ok(Answer::Done(machine.kill(axis))),
        Call::Target(axis, target) => Ok(Answer::Done(machine.target(axis, target))),
        Call::Switch(axis, on) => Ok(Answer::Done(machine.switch(axis, on))),
        Call::Question(axis) => Ok(Answer::Report(machine.question(axis))),
        Call::Cycle(row, places) => cycle(heap, machine, row, places),
    }
}
