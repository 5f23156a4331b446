//! Readings, offered to a source one after another.
ghost use Rattle.std.specs.Prelude.{◌≡◌, [], ◌∷◌, ◌++◌, OnOk, string_bytes};
ghost use Rattle.source.specs.Meaning.{after};
ghost use Rattle.offset_report.specs.Inputs.{readings_left};
ghost use Rattle.offset_report.specs.Readings.{seen_at, offered_at, said_at, after_reading, said};
ghost use Rattle.offset_report.specs.Reports.{report_lines};

use crate::readings::Readings;
use crate::standing::Standing;
use crate::write::put;
use faults::fault::{Fault, Refusal};
use source::source::Source;
use std::alloc::AllocError;

/// Where axis 0 of a source stands.
pub(crate) fn see<S: Source>(source: &S, line: usize) -> Result<Standing, Fault>
    ensures { result ≡ seen_at line (S.Source.means source.now []) }
{
    let bare = source.bare(0).map_err(|fault| fault.at_line(line))?;
    let offset = source.offset(0).map_err(|fault| fault.at_line(line))?;
    Ok(Standing { line, bare, offset })
}

/// Offers a reading to a source.
fn offer<S: Source>(source: &mut S, line: usize, reading: u32) -> Result<Standing, Fault>
    ensures said { result
        ≡ offered_at line ((S.Source.means source.old []).refusal (reading ∷ []))
        (after (S.Source.means source.old) (reading ∷ []) []) }
    ensures next { S.Source.means source.new ≡ after (S.Source.means source.old) (reading ∷ []) }
{
    source
        .advance(&[reading])
        .map_err(|fault| fault.at_line(line))?;
    see(source, line)
}

/// Offers what a line was read as to a source.
fn take_reading<S: Source>(
    source: &mut S,
    line: usize,
    reading: Result<u32, Refusal>,
) -> Result<Standing, Fault>
    ensures said { result ≡ said_at line (S.Source.means source.old) reading }
    ensures next { S.Source.means source.new ≡ after_reading (S.Source.means source.old) reading }
{
    let reading = reading.map_err(|refusal| Fault::in_text(refusal, line))?;
    offer(source, line, reading)
}

/// Offers readings to a source, and writes what comes of each.
pub(crate) fn follow<S: Source>(
    out: &mut String,
    source: &mut S,
    readings: Readings<'_>,
) -> Result<(), AllocError>
    ensures { OnOk result (string_bytes out.new
        ≡ string_bytes out.old
        ++ report_lines (said (S.Source.means source.old) (readings_left readings.entry))) }
{
    for (line, reading) in readings {
        put(out, take_reading(source, line, reading))?;
    }
    Ok(())
}
