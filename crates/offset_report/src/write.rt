//! How a report is printed.
ghost use Rattle.std.specs.Prelude.{◌≡◌, ◌++◌, Some, OnOk, string_bytes};
ghost use Rattle.offset_report.specs.Reports.{standing_text, report_line};

use crate::standing::Standing;
use faults::fault::Fault;
use std::alloc::AllocError;
use std::fmt;

/// As `line=8 bare=80 offset=-8`.
impl fmt::Display for Standing {
    ghost output = { λ s. Some (standing_text s) };

    fn fmt<W: fmt::Write>(&self, f: &mut fmt::Formatter<W>) -> fmt::Result {
        let Standing { line, bare, offset } = *self;
        write!(f, "line={line} bare={bare} offset={offset}")
    }
}

/// Puts a report's line at the end of an output.
pub(crate) fn put(out: &mut String, report: Result<Standing, Fault>) -> Result<(), AllocError>
    ensures { OnOk result (string_bytes out.new ≡ string_bytes out.old ++ report_line report) }
{
    match report {
        Ok(standing) => writeln!(out, "{standing}"),
        Err(fault) => writeln!(out, "{fault}"),
    }
}
