//! A layer: a correction on a source, which is a source again.
ghost use Rattle.std.specs.Prelude.{◌≡◌, []};
ghost use Rattle.source.specs.Meaning.{row_answer, after};

use crate::below::{offset_below, sum};
use crate::correction::Correction;
use faults::fault::Fault;
use source::source::Source;

/// A correction on any source.
#[derive(Drop)]
pub struct Layer<S: Source, C: Correction> {
    pub(crate) below: S,
    pub(crate) correction: C,
}

impl<S: Source, C: Correction> Layer<S, C> {
    /// Puts a correction on a source.
    pub fn new(below: S, correction: C) -> Self
        ensures { C.Correction.laid result.correction (S.Source.means result.below)
            ≡ C.Correction.laid correction (S.Source.means below) }
    {
        Layer { below, correction }
    }

    // Offers a row to the source below, and goes on after one that is accepted.
    fn take_row(&mut self, row: &[u32]) -> Result<(), Fault>
        ensures answer { result ≡ row_answer (S.Source.means self.old.below []) row.now }
        ensures next { C.Correction.laid self.new.correction (S.Source.means self.new.below)
            ≡ after (C.Correction.laid self.old.correction (S.Source.means self.old.below))
            row.now }
    {
        self.below.advance(row)?;
        self.correction.follow(&self.below);
        Ok(())
    }
}

impl<S: Source, C: Correction> Source for Layer<S, C> {
    ghost means = { λ l. C.Correction.laid l.correction (S.Source.means l.below) };

    ghost lawful = { λ l.
        C.Correction.keeps l.correction (S.Source.means l.below) (S.Source.lawful l.below) };

    fn axes(&self) -> usize {
        self.below.axes()
    }

    fn depth(&self) -> usize {
        self.below.depth() + usize::from(self.correction.fits(&self.below))
    }

    fn bare(&self, axis: usize) -> Result<i64, Fault> {
        self.below.bare(axis)
    }

    fn offset(&self, axis: usize) -> Result<i64, Fault> {
        let offset = offset_below(&self.below, axis)?;
        Ok(sum(offset, self.correction.amount(&self.below, axis)))
    }

    fn advance(&mut self, row: &[u32]) -> Result<(), Fault> {
        self.take_row(row)
    }
}
