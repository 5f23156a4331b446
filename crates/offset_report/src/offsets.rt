//! From an input's bytes to the program's output.
ghost use Rattle.std.specs.Prelude.{◌≡◌, ◌≤◌, ◌++◌, length, IfOk, OnOk, string_bytes};
ghost use Rattle.std.specs.Result.{result_map_both};
ghost use Rattle.sheets.specs.Tables.{held};
ghost use Rattle.layers.specs.SheetLayers.{sheet_put};
ghost use Rattle.table_text.specs.TableTexts.{reading};
ghost use Rattle.offset_report.specs.Inputs.{readings_left};
ghost use Rattle.offset_report.specs.Offsets.{bank_meaning, started_by, close_line, laid_on, put_on, start as started, after_table, output};
ghost use Rattle.offset_report.specs.Reports.{report_lines};

use crate::follow::{follow, see};
use crate::input::cut_input;
use crate::readings::Readings;
use crate::write::put;
use banks::bank::Bank;
use faults::fault::{Fault, Refusal};
use gauges::gauge::Gauge;
use layers::sheet_layer::{SheetLayer, sheet_fit};
use sheets::sheet::Sheet;
use std::alloc::{AllocError, Global};
use table_text::table::read_text;

/// The largest move that a reading may make, in counts.
const JUMP_LIMIT: i64 = 8_388_607;

/// The bank that a line's reading sets up.
fn start_bank(line: usize, reading: Result<u32, Refusal>) -> Result<Bank, Fault>
    ensures { result_map_both bank_meaning (λ f. f) result ≡ started_by line reading }
{
    let reading = reading.map_err(|refusal| Fault::in_text(refusal, line))?;
    let mut bank = Bank::new(Gauge::Encoder);
    bank.set_up(&[reading], JUMP_LIMIT)
        .map_err(|fault| fault.at_line(line))?;
    Ok(bank)
}

/// The line that closed the table of a sheet, and line 2 for an empty one.
fn close_line(sheet: &Sheet) -> usize
    ensures value { result ≡ close_line (held sheet.now) }
    ensures bound { result ≤ 290 }
{
    sheet.table().map_or(0, |table| table.entries().len()) + 2
}

/// The sheet on a bank. Where it does not fit, the fault names the line that closed its table.
fn lay(sheet: &Sheet, bank: Bank) -> Result<SheetLayer<Bank>, Fault>
    ensures { result_map_both (λ l. sheet_put l.correction (bank_meaning l.below)) (λ f. f) result
        ≡ laid_on (held sheet.now) (bank_meaning bank) }
{
    sheet_fit(sheet, &bank).map_err(|fault| fault.at_line(close_line(sheet)))?;
    Ok(SheetLayer::put(bank, sheet))
}

/// Puts the sheet on the bank, says where the axis stands, and goes on with the readings behind.
fn put_on(
    out: &mut String,
    sheet: &Sheet,
    bank: Bank,
    line: usize,
    readings: Readings<'_>,
) -> Result<(), AllocError>
    ensures { OnOk result (string_bytes out.new
        ≡ string_bytes out.old
        ++ report_lines (put_on (held sheet.now) (bank_meaning bank) line
        (readings_left readings.entry))) }
{
    match lay(sheet, bank) {
        Ok(mut layer) => {
            put(out, see(&layer, line))?;
            follow(out, &mut layer, readings)
        }
        Err(fault) => put(out, Err(fault)),
    }
}

/// Tries readings until one sets the bank up.
fn start(out: &mut String, sheet: &Sheet, mut readings: Readings<'_>) -> Result<(), AllocError>
    ensures { OnOk result (string_bytes out.new
        ≡ string_bytes out.old
        ++ report_lines (started (held sheet.now) (readings_left readings.entry))) }
{
    // No `for`: the readings behind the first accepted one go on to `put_on`.
    while let Some((line, reading)) = readings.next() {
        match start_bank(line, reading) {
            Ok(bank) => return put_on(out, sheet, bank, line, readings),
            Err(fault) => put(out, Err(fault))?,
        }
    }
    Ok(())
}

/// Reads the table, and then its readings.
#[tactic(auto, using(crate::proofs::Reading::refused, crate::proofs::Reading::accepted))]
fn report(out: &mut String, table: &[u8], readings: &[u8]) -> Result<(), AllocError>
    requires { length readings.now ≤ 65536 }
    ensures { OnOk result (string_bytes out.new
        ≡ string_bytes out.old ++ report_lines (after_table (reading table.now) readings.now)) }
{
    let mut sheet = Sheet::new();
    if let Err(fault) = read_text(&mut sheet, table) {
        return put(out, Err(fault));
    }
    let readings = Readings {
        line: close_line(&sheet) + 1,
        rest: readings,
    };
    start(out, &sheet, readings)
}

/// What the program writes for an input, of which it reads no more than 65,536 bytes.
pub fn offsets(heap: Global, input: &[u8]) -> Result<Vec<u8>, AllocError>
    ensures { IfOk result (λ out. out.items ≡ output input.now) }
{
    let (table, readings) = cut_input(input);
    let mut out = String::new(heap);
    report(&mut out, table, readings)?;
    Ok(out.into_bytes())
}
