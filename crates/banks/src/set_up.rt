//! A bank, made and set up.
ghost use Rattle.std.specs.Prelude.{◌≡◌, [], None, unsigned_abs};
ghost use Rattle.gauges.specs.Gauges.{outcome, jump_refusal};
ghost use Rattle.banks.specs.Bank.{refused, count_refusal, set_up_refusal, started, unless};
ghost use Rattle.source.specs.Meaning.{answer_of};

use crate::bank::{Bank, MOST};
use crate::walk::start_axes;
use arrayvec::ArrayVec;
use faults::fault::{Fault, Part, Refusal};
use gauges::gauge::Gauge;

fn check_jump(gauge: Gauge, jump: i64) -> Result<u32, Fault>
    ensures { result ≡ outcome (refused (jump_refusal gauge jump) None) (unsigned_abs jump) }
{
    gauge
        .jump_limit(jump)
        .map_err(|refusal| Fault::of(Part::Source, refusal))
}

fn check_count(readings: &[u32]) -> Result<(), Fault>
    ensures { result ≡ answer_of (refused (count_refusal readings.now) None) }
{
    if readings.len() > MOST {
        return Err(Fault::of(Part::Source, Refusal::OutOfRange));
    }
    Ok(())
}

impl Bank {
    /// A bank that is not set up: it has no axes.
    pub fn new(gauge: Gauge) -> Bank
        ensures gauge { result.gauge ≡ gauge }
        ensures jump { result.jump ≡ 0 }
        ensures axes { result.axes.items ≡ [] }
    {
        Bank {
            gauge,
            jump: 0,
            axes: ArrayVec::new(),
        }
    }

    /// Gives the bank an axis for each reading, and its jump limit. A refused set-up leaves the bank as it was; an
    /// accepted one may be followed by another.
    pub fn set_up(&mut self, readings: &[u32], jump: i64) -> Result<(), Fault>
        ensures answer { result ≡ answer_of (set_up_refusal self.old.gauge readings.now jump) }
        ensures gauge { self.new.gauge ≡ self.old.gauge }
        ensures jump { let bad = set_up_refusal self.old.gauge readings.now jump in
            self.new.jump ≡ unless bad self.old.jump (unsigned_abs jump) }
        ensures axes { let bad = set_up_refusal self.old.gauge readings.now jump in
            let fresh = started self.old.gauge readings.now in
            self.new.axes.items ≡ unless bad self.old.axes.items fresh }
    {
        let limit = check_jump(self.gauge, jump)?;
        check_count(readings)?;
        self.axes = start_axes(self.gauge, readings)?;
        self.jump = limit;
        Ok(())
    }
}
