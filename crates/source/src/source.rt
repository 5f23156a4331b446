//! What every source of positions answers.
ghost use Rattle.std.specs.Prelude.{◌≡◌, []};
ghost use Rattle.source.specs.Meaning.{Meaning, Lawful, bare_answer, offset_answer, row_answer, after};

use faults::fault::Fault;

pub trait Source {
    // What is seen after the rows that are offered from now on.
    ghost means: { Self → Meaning };

    fn axes(&self) -> usize
        ensures { result ≡ (means self.now []).axes };

    fn depth(&self) -> usize
        ensures { result ≡ (means self.now []).depth };

    fn bare(&self, axis: usize) -> Result<i64, Fault>
        ensures { result ≡ bare_answer (means self.now []) axis };

    fn offset(&self, axis: usize) -> Result<i64, Fault>
        ensures { result ≡ offset_answer (means self.now []) axis };

    fn advance(&mut self, row: &[u32]) -> Result<(), Fault>
        ensures answer { result ≡ row_answer (means self.old []) row.now }
        ensures next { means self.new ≡ after (means self.old) row.now };

    ghost lawful: { (s : Self) → Lawful (means s) };
}
