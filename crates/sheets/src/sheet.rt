//! A sheet, and the table in it.
ghost use Rattle.std.specs.Prelude.{◌≡◌, ◌≤◌, length, None};
ghost use Rattle.std.specs.Option.{option_map};
ghost use Rattle.headings.specs.Heads.{head_of};
ghost use Rattle.sheets.specs.Tables.{held, table_of};

use crate::table::Table;
use headings::heading::Heading;

/// A sheet is empty or holds a complete table.
#[derive(Clone, Copy)]
pub struct Sheet {
    pub(crate) table: Option<Table>,
}

impl Sheet {
    /// An empty sheet.
    pub fn new() -> Sheet
        ensures { held result ≡ None }
    {
        Sheet { table: None }
    }

    /// The table that the sheet holds.
    pub fn table(&self) -> Option<&Table>
        ensures { option_map (λ t. table_of t.now) result ≡ held self.now }
    {
        self.table.as_ref()
    }
}

impl Table {
    /// The table's heading.
    pub fn heading(&self) -> Heading
        ensures { head_of result ≡ (table_of self.now).head }
    {
        self.begun.heading
    }

    /// The table's entries.
    pub fn entries(&self) -> &[i16]
        ensures value { result.now ≡ (table_of self.now).entries }
        ensures bound { length result.now ≤ 288 }
    {
        self.begun.entries.items()
    }
}
