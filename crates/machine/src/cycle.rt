//! One cycle of the machine.
ghost use Rattle.std.specs.Prelude.{◌≡◌, ◌<◌, [], Some, None, map, length, take, MatchResult, slice_set};
ghost use Rattle.source.specs.Meaning.{answer_of};
ghost use Rattle.motor.specs.Motors.{stepped, view};
ghost use Rattle.mill.specs.Mills.{motor_at, output_of, position_at, stepped_all, unless};
ghost use Rattle.mill.specs.Calls.{cycle_refusal, cycled, cycles, outputs, row_after, wrong_length};
ghost use Rattle.machine.specs.Machines.{mill_of};

use crate::checks::passes;
use crate::machine::Machine;
use faults::fault::{Fault, Part, Refusal};
use source::source::Source;

impl<S: Source> Machine<S> {
    // One axis takes its cycle, where the source now is.
    fn turn(&mut self, axis: usize) -> i32
        requires { axis < (S.Source.means self.old.source []).axes }
        ensures source { self.new.source ≡ self.old.source }
        ensures eight { length self.old.inner.records ≡ 8 }
        ensures motors { let old = mill_of S.Source.means self.old in
            let left = stepped (position_at axis old) (motor_at axis old) in
            map view self.new.inner.records
            ≡ slice_set (map view self.old.inner.records) axis left }
        ensures out { let old = mill_of S.Source.means self.old in
            result ≡ (stepped (position_at axis old) (motor_at axis old)).output }
    {
        let present = self.at(axis);
        let x = present.place();
        let axis = present.axis;
        self.inner.change(axis, |motor| motor.step(x))
    }

    // Each axis takes its cycle, where the source now is.
    fn drive(&mut self, out: &mut [i32])
        requires { length out.old ≡ (S.Source.means self.old.source []).axes }
        ensures source { self.new.source ≡ self.old.source }
        ensures motors { let seen = S.Source.means self.old.source [] in
            map view self.new.inner.records ≡ stepped_all seen 0 (map view self.old.inner.records) }
        ensures row { let left = map view self.new.inner.records in
            out.new ≡ map output_of (take (length out.old) left) }
    {
        for (axis, place) in out.iter_mut().enumerate() {
            *place = self.turn(axis);
        }
    }

    // A cycle whose output row has one place an axis.
    fn advance(&mut self, row: &[u32], out: &mut [i32]) -> Result<(), Fault>
        requires { length out.old ≡ (S.Source.means self.old.source []).axes }
        ensures answer { result ≡ answer_of ((S.Source.means self.old.source []).refusal row.now) }
        ensures next { let old = mill_of S.Source.means self.old in
            let refusal = (S.Source.means self.old.source []).refusal row.now in
            mill_of S.Source.means self.new ≡ unless refusal old (cycled row.now old) }
        ensures row { let old = mill_of S.Source.means self.old in
            let refusal = (S.Source.means self.old.source []).refusal row.now in
            out.new ≡ unless refusal out.old (outputs row.now old) }
    {
        self.source.advance(row)?;
        self.drive(out);
        Ok(())
    }

    // 4 for an output row that has not one place an axis.
    fn has_places(&self, places: usize) -> Result<(), Fault>
        ensures { let check = wrong_length places (mill_of S.Source.means self.now) in
            MatchResult result
            (λ _. (check ≡ None) × (places ≡ (S.Source.means self.now.source []).axes))
            (λ f. check ≡ Some f) }
    {
        let fault = Fault::of(Part::Machine, Refusal::WrongLength);
        passes(places == self.source.axes(), fault)
    }

    /// Hands a row of readings to the source, drives each closed axis where it then is, and writes what each axis puts out.
    /// The output row is looked at before the source is asked, and is written only when the cycle is accepted.
    pub fn cycle(&mut self, row: &[u32], out: &mut [i32]) -> Result<(), Fault>
        ensures answer { result ≡ answer_of
            (cycle_refusal row.now (length out.old) (mill_of S.Source.means self.old)) }
        ensures next { mill_of S.Source.means self.new ≡
            cycles row.now (length out.old) (mill_of S.Source.means self.old) }
        ensures row { out.new ≡ row_after row.now out.old (mill_of S.Source.means self.old) }
    {
        self.has_places(out.len())?;
        self.advance(row, out)
    }
}
