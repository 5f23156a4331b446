//! Two fresh machines, East and West, over one list of calls.
ghost use Rattle.std.specs.Prelude.{◌≡◌, map, IfOk};
ghost use Rattle.machine.specs.Machines.{mill_of};
ghost use Rattle.mill.specs.Asked.{reply_of};
ghost use Rattle.mill.specs.Mills.{fresh_mill};
ghost use Rattle.mill.specs.Runs.{answers, run};
ghost use Rattle.mills_law.specs.MillsLaw.{MillsLaw, PairLaw};
ghost use Rattle.mills_law.specs.Pairs.{shift_of};
ghost use Rattle.pair.specs.PairCalls.{pair_of, side_of};

use crate::lists::asked_on;
use crate::mill_run::{MillRun, run_mill};
use crate::pair_call::{PairCall, Side};
use mills_law::laws::mills_obey;
use source::source::Source;
use std::alloc::{AllocError, Global};

/// What each machine said at every call, and the machines afterwards.
#[derive(Drop)]
pub struct PairRun<E: Source, W: Source> {
    pub east: MillRun<E>,
    pub west: MillRun<W>,
}

// A side's run.
fn run_on<S: Source + Drop>(
    heap: Global,
    source: S,
    side: Side<'_>,
    calls: &[PairCall],
) -> Result<MillRun<S>, AllocError>
    ensures { let asked = map (side_of side.entry) (map pair_of calls.now) in
        let start = fresh_mill (S.Source.means source) in
        IfOk result (λ d. (map reply_of d.answers.items ≡ answers asked start)
        × (mill_of S.Source.means d.machine ≡ run asked start)) }
{
    let asked = asked_on(heap, side, calls)?;
    run_mill(heap, source, asked.as_slice())
}

// The law of any two sources, which it takes no memory to state.
fn obeyed<E: Source, W: Source>(east: &E, west: &W, shift: &[i64], calls: &[PairCall])
    ensures { MillsLaw (shift_of shift.now) (E.Source.means east.now) (W.Source.means west.now)
        (map pair_of calls.now) }
{
    mills_obey();
}

/// Runs two fresh machines over a list of calls, West with the shift added to its targets and with its own rows of readings.
/// The law over two mills holds of what they answer at every call.
pub fn run_pair<E: Source + Drop, W: Source + Drop>(
    heap: Global,
    east: E,
    west: W,
    shift: &[i64],
    calls: &[PairCall],
) -> Result<PairRun<E, W>, AllocError>
    ensures { IfOk result (λ d. PairLaw (shift_of shift.now)
        (E.Source.means east) (W.Source.means west) (map pair_of calls.now)
        (map reply_of d.east.answers.items) (map reply_of d.west.answers.items)
        (mill_of E.Source.means d.east.machine) (mill_of W.Source.means d.west.machine)) }
{
    obeyed(&east, &west, shift, calls);
    let east = run_on(heap, east, Side::East, calls)?;
    let west = run_on(heap, west, Side::West(shift), calls)?;
    Ok(PairRun { east, west })
}
