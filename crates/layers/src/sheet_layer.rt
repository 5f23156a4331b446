//! A layer that adds the value of a sheet.
ghost use Rattle.std.specs.Prelude.{◌≡◌, [], None, ◌==◌};
ghost use Rattle.rounding.specs.Bounds.{Within};
ghost use Rattle.std.specs.Option.{option_map};
ghost use Rattle.sheets.specs.Tables.{held, table_of};
ghost use Rattle.source.specs.Meaning.{answer_of, row_answer, after};
ghost use Rattle.layers.specs.Laid.{share};
ghost use Rattle.layers.specs.SheetLayers.{head_fit, sheet_fit, sheet_target, value_seen, sheet_value, sheet_put, fitting};
ghost use Rattle.layers.specs.SheetLaws.{sheet_lawful, sheet_passes};

use crate::below::{has_axis, has_room, position};
use crate::correction::Correction;
use crate::layer::Layer;
use faults::fault::{Fault, Part, Refusal};
use sheets::sheet::Sheet;
use sheets::table::Table;
use source::source::Source;
use values::value::table_value;

/// A copy of a sheet, on any source. Where it does not fit it is blank: it adds nothing and counts nothing.
pub type SheetLayer<S> = Layer<S, Sheet>;

/// Whether a sheet fits on a source: 7 for an empty sheet, then 3 at the first absent axis of its heading, then 12.
pub fn sheet_fit<S: Source>(sheet: &Sheet, below: &S) -> Result<(), Fault>
    ensures { result ≡ answer_of (sheet_fit (held sheet.now) (S.Source.means below.now [])) }
{
    let table = sheet
        .table()
        .ok_or(Fault::of(Part::Sheet, Refusal::Incomplete))?;
    let heading = table.heading();
    has_axis(below, Part::Sheet, heading.row_axis())?;
    has_axis(below, Part::Sheet, heading.column_axis())?;
    has_axis(below, Part::Sheet, heading.target_axis())?;
    has_room(below, Part::Sheet)
}

// The table of a sheet that fits on a source.
fn fitted<'a, S: Source>(sheet: &'a Sheet, below: &S) -> Option<&'a Table>
    ensures { option_map (λ t. table_of t.now) result
        ≡ fitting (sheet_fit (held sheet.now) (S.Source.means below.now [])) (held sheet.now) }
{
    sheet_fit(sheet, below).ok()?;
    sheet.table()
}

// The value of a table that fits on a source, where the source stands now.
fn value_here<S: Source>(table: &Table, below: &S) -> i64
    requires { head_fit (table_of table.now).head (S.Source.means below.now []) ≡ None }
    ensures value { result ≡ value_seen (table_of table.now) (S.Source.means below.now []) }
    ensures near { Within 32767 result }
{
    let heading = table.heading();
    let row = position(below, heading.row_axis());
    let column = position(below, heading.column_axis());
    table_value(table, row, column)
}

// What a sheet adds at an axis of a source.
fn amount<S: Source>(sheet: &Sheet, below: &S, axis: usize) -> i64
    ensures value { let seen = S.Source.means below.now [] in
        let on = (axis == sheet_target (held sheet.now)) in
        result ≡ share (sheet_fit (held sheet.now) seen) on (sheet_value (held sheet.now) seen) }
    ensures near { Within 32767 result }
{
    match fitted(sheet, below) {
        Some(table) if axis == table.heading().target_axis() => value_here(table, below),
        _ => 0,
    }
}

impl Correction for Sheet {
    ghost laid = { sheet_put };

    ghost passes = { λ sheet m. sheet_passes sheet m };

    ghost keeps = { sheet_lawful };

    fn fits<S: Source>(&self, below: &S) -> bool {
        sheet_fit(self, below).is_ok()
    }

    fn amount<S: Source>(&self, below: &S, axis: usize) -> i64 {
        amount(self, below, axis)
    }

    fn follow<S: Source>(&mut self, _below: &S) {}
}

impl<S: Source> Layer<S, Sheet> {
    /// Puts a sheet on a source.
    pub fn put(below: S, sheet: &Sheet) -> Self
        ensures { sheet_put result.correction (S.Source.means result.below)
            ≡ sheet_put sheet.now (S.Source.means below) }
    {
        Layer::new(below, *sheet)
    }
}
