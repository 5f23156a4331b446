//! How a fault is printed.
ghost use Rattle.std.specs.Prelude.{◌≡◌, Some};
ghost use Rattle.faults.specs.FaultTexts.{part_name, fault_text};

use crate::fault::{Fault, Part};
use std::fmt;

impl Part {
    /// The name of a part.
    pub fn text(self) -> &'static str
        ensures { result.now ≡ part_name self }
    {
        match self {
            Part::Text => "text",
            Part::Sheet => "sheet",
            Part::Source => "source",
            Part::Machine => "machine",
        }
    }
}

impl fmt::Display for Part {
    ghost output = { λ p. Some (part_name p) };

    fn fmt<W: fmt::Write>(&self, f: &mut fmt::Formatter<W>) -> fmt::Result {
        f.write_str(self.text())
    }
}

/// As `refused=5 line=9 axis=0 from=source`; a line or an axis that is not named is left out.
impl fmt::Display for Fault {
    ghost output = { λ f. Some (fault_text f) };

    fn fmt<W: fmt::Write>(&self, f: &mut fmt::Formatter<W>) -> fmt::Result {
        let number = self.refusal.number();
        write!(f, "refused={number}")?;
        if let Some(line) = self.line {
            write!(f, " line={line}")?;
        }
        if let Some(axis) = self.axis {
            write!(f, " axis={axis}")?;
        }
        let part = self.part;
        write!(f, " from={part}")
    }
}
