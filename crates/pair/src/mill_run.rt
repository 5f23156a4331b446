//! A fresh machine on a source, over a list of calls.
ghost use Rattle.std.specs.Prelude.{◌≡◌, map, IfOk};
ghost use Rattle.machine.specs.Machines.{mill_of};
ghost use Rattle.mill.specs.Asked.{command_of, reply_of};
ghost use Rattle.mill.specs.Mills.{fresh_mill};
ghost use Rattle.mill.specs.Runs.{answers, run};

use crate::obey::obey;
use machine::machine::Machine;
use mill::answer::Answer;
use mill::call::Call;
use source::source::Source;
use std::alloc::{AllocError, Global};

/// What a machine said at every call, and the machine afterwards.
#[derive(Drop)]
pub struct MillRun<S: Source> {
    pub machine: Machine<S>,
    pub answers: Vec<Answer>,
}

/// Runs a fresh machine over a list of calls.
pub fn run_mill<S: Source + Drop>(
    heap: Global,
    source: S,
    calls: &[Call<'_>],
) -> Result<MillRun<S>, AllocError>
    ensures { let asked = map command_of calls.now in
        let start = fresh_mill (S.Source.means source) in
        IfOk result (λ d. (map reply_of d.answers.items ≡ answers asked start)
        × (mill_of S.Source.means d.machine ≡ run asked start)) }
{
    let mut machine = Machine::new(source);
    let mut answers = Vec::new(heap);
    for call in calls {
        let answer = obey(heap, &mut machine, *call)?;
        answers.push(answer)?;
    }
    Ok(MillRun { machine, answers })
}
