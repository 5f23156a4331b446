//! What a bank answers.
ghost use Rattle.std.specs.Prelude.{◌≡◌, None, length};
ghost use Rattle.gauges.specs.Gauges.{outcome};
ghost use Rattle.banks.specs.Bank.{bank_means, absence, refused, length_refusal};
ghost use Rattle.source.specs.Meaning.{answer_of};
ghost use Rattle.banks.specs.Axes.{axis_at};
ghost use Rattle.banks.specs.BankProofs.{bank_lawful};

use crate::bank::Bank;
use crate::walk::move_axes;
use faults::fault::{Fault, Part, Refusal};
use gauges::gauge::Axis;
use source::source::Source;

impl Bank {
    // An axis, or that the bank has none of that number.
    fn axis(&self, axis: usize) -> Result<Axis, Fault>
        ensures { let held = self.now.axes.items in
            result ≡ outcome (absence (length held) axis) (axis_at held axis) }
    {
        self.axes
            .get(axis)
            .copied()
            .ok_or(Fault::of(Part::Source, Refusal::NoSuchAxis).on_axis(axis))
    }

    fn check_length(&self, row: &[u32]) -> Result<(), Fault>
        ensures { result
            ≡ answer_of (refused (length_refusal (length self.now.axes.items) row.now) None) }
    {
        if row.len() != self.axes.len() {
            return Err(Fault::of(Part::Source, Refusal::WrongLength));
        }
        Ok(())
    }
}

impl Source for Bank {
    ghost means = { λ b. bank_means b.gauge (length b.axes.items) b.jump b.axes.items };

    ghost lawful = { λ s.
        bank_lawful s.gauge (length s.axes.items) s.jump s.axes.items s.few s.near };

    fn axes(&self) -> usize {
        self.axes.len()
    }

    fn depth(&self) -> usize {
        0
    }

    fn bare(&self, axis: usize) -> Result<i64, Fault> {
        Ok(self.axis(axis)?.position)
    }

    fn offset(&self, axis: usize) -> Result<i64, Fault> {
        self.axis(axis)?;
        Ok(0)
    }

    fn advance(&mut self, row: &[u32]) -> Result<(), Fault> {
        self.check_length(row)?;
        self.axes = move_axes(self.gauge, self.jump, &self.axes, row)?;
        Ok(())
    }
}
