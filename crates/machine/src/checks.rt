//! The checks of a machine's calls.
ghost use Rattle.std.specs.Prelude.{◌≡◌, ◌<◌, [], Some, None, MatchResult, if◌then◌else◌};
ghost use Rattle.mill.specs.Mills.{machine_fault};
ghost use Rattle.mill.specs.Calls.{absent, closed, not_closed, too_far, unfit};
ghost use Rattle.machine.specs.Machines.{mill_of};

use crate::axis::{Axis, Present};
use crate::machine::Machine;
use faults::fault::{Fault, Part, Refusal};
use servo::gains::Gains;
use servo::place::Place;
use servo::settings::GainSettings;
use source::source::Source;

// A refusal of the machine at an axis.
fn refused(refusal: Refusal, axis: usize) -> Fault
    ensures { result ≡ machine_fault refusal axis }
{
    Fault::of(Part::Machine, refusal).on_axis(axis)
}

// The fault of a check that was not passed.
pub(crate) fn passes(passed: bool, fault: Fault) -> Result<(), Fault>
    ensures { let check = (if passed then None else Some fault) in
        MatchResult result (λ _. check ≡ None) (λ f. check ≡ Some f) }
{
    passed.then_some(()).ok_or(fault)
}

// Gains, and 2 for those out of range.
pub(crate) fn fit(axis: usize, settings: GainSettings) -> Result<Gains, Fault>
    ensures { let check = unfit axis settings in
        MatchResult result (λ g. (check ≡ None) × (g.settings ≡ settings)) (λ f. check ≡ Some f) }
{
    Gains::try_from(settings).map_err(|fault| fault.on_axis(axis))
}

// A target, and 2 for one beyond the position limit.
pub(crate) fn within_reach(axis: usize, target: i64) -> Result<Place, Fault>
    ensures { let check = too_far axis target in
        MatchResult result (λ p. (check ≡ None) × (p.at ≡ target)) (λ f. check ≡ Some f) }
{
    Place::within_reach(target).map_err(|fault| fault.on_axis(axis))
}

impl<S: Source> Machine<S> {
    // An axis that its source has.
    pub(crate) fn at(&self, axis: usize) -> Present<'_, S>
        requires { axis < (S.Source.means self.now.source []).axes }
        ensures axis { result.axis.number ≡ axis }
        ensures machine { result.machine.now ≡ self.now }
    {
        Present {
            machine: self,
            axis: Axis { number: axis },
        }
    }

    // An axis that is there, and 3 for an absent one.
    pub(crate) fn has_axis(&self, axis: usize) -> Result<Present<'_, S>, Fault>
        ensures { let check = absent axis (mill_of S.Source.means self.now) in
            MatchResult result
            (λ p. (check ≡ None) × (p.axis.number ≡ axis) × (p.machine.now ≡ self.now))
            (λ f. check ≡ Some f) }
    {
        passes(
            axis < self.source.axes(),
            refused(Refusal::NoSuchAxis, axis),
        )?;
        Ok(self.at(axis))
    }
}

impl<S: Source> Present<'_, S> {
    // Two checks and no flag for which: with one, its contract would name both laws of the mill, and a call would say less.
    // The axis where it is not closed, and 10 for a closed one.
    pub(crate) fn open(&self) -> Result<Axis, Fault>
        ensures { let mill = mill_of S.Source.means self.now.machine.now in
            let check = closed self.now.axis.number mill in
            MatchResult result (λ a. (check ≡ None) × (a ≡ self.now.axis)) (λ f. check ≡ Some f) }
    {
        let fault = refused(Refusal::AxisClosed, self.axis.number);
        passes(!self.motor().is_closed(), fault)?;
        Ok(self.axis)
    }

    // The axis where it is closed, and 11 for one that is not.
    pub(crate) fn closed(&self) -> Result<Axis, Fault>
        ensures { let mill = mill_of S.Source.means self.now.machine.now in
            let check = not_closed self.now.axis.number mill in
            MatchResult result (λ a. (check ≡ None) × (a ≡ self.now.axis)) (λ f. check ≡ Some f) }
    {
        let fault = refused(Refusal::AxisNotClosed, self.axis.number);
        passes(self.motor().is_closed(), fault)?;
        Ok(self.axis)
    }
}
