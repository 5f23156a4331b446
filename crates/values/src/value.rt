//! The value of a sheet.
ghost use Rattle.std.specs.Prelude.{◌≡◌, IfOk};
ghost use Rattle.rounding.specs.Bounds.{Within};
ghost use Rattle.sheets.specs.Tables.{table_of, held};
ghost use Rattle.values.specs.Values.{value, value_answer};

use crate::plane::PlaneTable;
use crate::screw::ScrewTable;
use faults::fault::{Fault, Part, Refusal};
use headings::heading::Heading;
use sheets::sheet::Sheet;
use sheets::table::Table;

// The bound of a value stands in clauses and is no type: each use, a sum of plain numbers, would take it out again.
// Beside `table_value`, which is public and so has no answers of its own: the bound needs two.
fn read_value(table: &Table, row: i64, column: i64) -> i64
    ensures value { result ≡ value (table_of table.now) row column }
    ensures near { Within 32767 result }
{
    let entries = table.entries();
    match table.heading() {
        Heading::Screw(screw) => ScrewTable { screw, entries }.value(row),
        Heading::Plane(plane) => PlaneTable { plane, entries }.value(row, column),
    }
}

/// A table's value at a position of its row axis and of its column axis; a screw is read by the first alone.
pub fn table_value(table: &Table, row: i64, column: i64) -> i64
    ensures value { result ≡ value (table_of table.now) row column }
    ensures near { Within 32767 result }
{
    read_value(table, row, column)
}

/// The value of the table in a sheet. An empty sheet has none.
pub fn value(sheet: &Sheet, row: i64, column: i64) -> Result<i64, Fault>
    ensures value { result ≡ value_answer (held sheet.now) row column }
    ensures near { IfOk result (λ v. Within 32767 v) }
{
    let table = sheet
        .table()
        .ok_or(Fault::of(Part::Sheet, Refusal::Incomplete))?;
    Ok(table_value(table, row, column))
}
