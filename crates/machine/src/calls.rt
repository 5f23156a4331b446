//! The calls that name one axis. The axis is looked at first, then ranges, then the state.
ghost use Rattle.std.specs.Prelude.{◌≡◌, None};
ghost use Rattle.source.specs.Meaning.{answer_of};
ghost use Rattle.motor.specs.Motors.{closed_at};
ghost use Rattle.mill.specs.Mills.{motor_at, with_motor};
ghost use Rattle.mill.specs.Calls.{absent, closed, close_refusal, closes, gains_refusal, gains_set, kills, question_answer, switches, target_refusal, targets};
ghost use Rattle.machine.specs.Machines.{mill_of};

use crate::axis::Axis;
use crate::checks::{fit, within_reach};
use crate::machine::Machine;
use faults::fault::Fault;
use mill::report::Report;
use motor::state::Event;
use servo::place::Place;
use servo::settings::GainSettings;
use source::source::Source;

impl<S: Source> Machine<S> {
    /// Sets the gains of an axis that is not closed.
    pub fn set_gains(&mut self, axis: usize, settings: GainSettings) -> Result<(), Fault>
        ensures answer { result ≡ answer_of
            (gains_refusal axis settings (mill_of S.Source.means self.old)) }
        ensures next { mill_of S.Source.means self.new ≡
            gains_set axis settings (mill_of S.Source.means self.old) }
    {
        let present = self.has_axis(axis)?;
        let gains = fit(axis, settings)?;
        let axis = present.open()?;
        self.inner.change(axis, |motor| motor.set_gains(gains));
        Ok(())
    }

    // Closes an axis that is not closed, at x.
    #[tactic(auto, using(crate::proofs::Changes::closes))]
    fn close_at(&mut self, axis: Axis, x: Place)
        requires { closed axis.number (mill_of S.Source.means self.old) ≡ None }
        ensures { let old = mill_of S.Source.means self.old in
            let left = closed_at x.at (motor_at axis.number old) in
            mill_of S.Source.means self.new ≡ with_motor axis.number left old }
    {
        let closing = Event::Closing(x.at);
        self.inner.change(axis, |motor| motor.take(closing));
    }

    /// Closes an axis that is not closed, where it stands.
    pub fn close(&mut self, axis: usize) -> Result<(), Fault>
        ensures answer { result ≡ answer_of (close_refusal axis (mill_of S.Source.means self.old)) }
        ensures next { mill_of S.Source.means self.new ≡
            closes axis (mill_of S.Source.means self.old) }
    {
        let present = self.has_axis(axis)?;
        let axis = present.open()?;
        let x = present.place();
        self.close_at(axis, x);
        Ok(())
    }

    /// Kills an axis: its output and its memory are 0.
    pub fn kill(&mut self, axis: usize) -> Result<(), Fault>
        ensures answer { result ≡ answer_of (absent axis (mill_of S.Source.means self.old)) }
        ensures next { mill_of S.Source.means self.new ≡
            kills axis (mill_of S.Source.means self.old) }
    {
        let axis = self.has_axis(axis)?.axis;
        self.inner.change(axis, |motor| motor.take(Event::Kill));
        Ok(())
    }

    /// Sends a closed axis to a target.
    pub fn target(&mut self, axis: usize, target: i64) -> Result<(), Fault>
        ensures answer { result ≡ answer_of
            (target_refusal axis target (mill_of S.Source.means self.old)) }
        ensures next { mill_of S.Source.means self.new ≡
            targets axis target (mill_of S.Source.means self.old) }
    {
        let present = self.has_axis(axis)?;
        let target = within_reach(axis, target)?;
        let axis = present.closed()?;
        self.inner.change(axis, |motor| motor.send_to(target));
        Ok(())
    }

    /// Switches the correction of an axis on or off.
    pub fn switch(&mut self, axis: usize, on: bool) -> Result<(), Fault>
        ensures answer { result ≡ answer_of (absent axis (mill_of S.Source.means self.old)) }
        ensures next { mill_of S.Source.means self.new ≡
            switches axis on (mill_of S.Source.means self.old) }
    {
        let axis = self.has_axis(axis)?.axis;
        self.inner.change(axis, |motor| motor.switch(on));
        Ok(())
    }

    /// What can be asked of an axis.
    pub fn question(&self, axis: usize) -> Result<Report, Fault>
        ensures { result ≡ question_answer axis (mill_of S.Source.means self.now) }
    {
        Ok(self.has_axis(axis)?.report())
    }
}
