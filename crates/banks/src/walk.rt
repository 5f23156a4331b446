//! A row of readings, walked axis by axis: the axes after it, or its first bad reading.
ghost use Rattle.std.specs.Prelude.{◌≡◌, ◌≤◌, length, IfOk};
ghost use Rattle.gauges.specs.Gauges.{outcome};
ghost use Rattle.banks.specs.Axes.{AllNear};
ghost use Rattle.banks.specs.Bank.{named, first_bad, start_bad, row_bad, started, placed};

use crate::bank::MOST;
use arrayvec::ArrayVec;
use faults::fault::{Fault, Part, Refusal};
use gauges::gauge::{Axis, Gauge};

// What a gauge said of an axis, with the axis's name on a refusal.
fn name(said: Result<Axis, Refusal>, axis: usize) -> Result<Axis, Fault>
    ensures { result ≡ named axis said }
{
    said.map_err(|refusal| Fault::of(Part::Source, refusal).on_axis(axis))
}

// The axes at their first readings, or the first bad reading.
pub(crate) fn start_axes(gauge: Gauge, readings: &[u32]) -> Result<ArrayVec<Axis, MOST>, Fault>
    requires { length readings.now ≤ 8 }
    ensures value { let bad = first_bad (start_bad gauge) 0 readings.now in
        result ≡ outcome bad (record { items = started gauge readings.now }) }
    ensures near { IfOk result (λ axes. AllNear axes.items) }
{
    let mut axes = ArrayVec::new();
    for (axis, reading) in readings.iter().enumerate() {
        axes.push(name(gauge.start(*reading), axis)?);
    }
    Ok(axes)
}

// The axes after a row of their number, or its first bad reading: nothing is stored here, so that a
// refused row moves none.
// Not one walk over a closure that reads: a clause on what the closure gives at each number is longer than the three lines spared.
// By index, and not zipped: the number of the first bad axis is the loop's own.
pub(crate) fn move_axes(
    gauge: Gauge,
    jump: u32,
    held: &[Axis],
    row: &[u32],
) -> Result<ArrayVec<Axis, MOST>, Fault>
    requires few { length held.now ≤ 8 }
    requires same { length row.now ≡ length held.now }
    ensures value { let bad = first_bad (row_bad gauge jump held.now) 0 row.now in
        result ≡ outcome bad (record { items = placed gauge held.now row.now }) }
    ensures count { IfOk result (λ axes. length axes.items ≡ length held.now) }
    ensures near { IfOk result (λ axes. AllNear axes.items) }
{
    let mut axes = ArrayVec::new();
    for (axis, reading) in row.iter().enumerate() {
        axes.push(name(gauge.read(jump, held[axis], *reading), axis)?);
    }
    Ok(axes)
}
