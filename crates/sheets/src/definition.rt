//! A sheet's definition: opened, filled entry by entry, and closed or cancelled.
ghost use Rattle.std.specs.Prelude.{◌≡◌, ◌≤◌, length, is_ok, if◌then◌else◌, Some, None};
ghost use Rattle.std.specs.Option.{option_map};
ghost use Rattle.std.specs.Result.{result_err};
ghost use Rattle.headings.specs.Heads.{sheet_fault, head_of};
ghost use Rattle.sheets.specs.Tables.{begun, held, fresh, push, entry_refusal, close_refusal};

use crate::begun::Begun;
use crate::sheet::Sheet;
use crate::table::Table;
use faults::fault::{Fault, Part, Refusal};
use headings::heading::Heading;

/// An open definition, which has its sheet to itself until it is closed or cancelled.
pub struct Definition<'a> {
    sheet: &'a mut Sheet,
    begun: Begun,
}

fn refused(refusal: Refusal) -> Fault
    ensures { result ≡ sheet_fault refusal }
{
    Fault::of(Part::Sheet, refusal)
}

impl Sheet {
    /// Empties the sheet, and lends it to a new definition.
    pub fn open(&mut self, heading: Heading) -> Definition<'_>
        ensures lends { result.sheet.ghost_name ≡ self.entry.ghost_name }
        ensures empties { held result.sheet.now ≡ None }
        ensures starts { begun result.begun ≡ fresh (head_of heading) }
    {
        self.table = None;
        Definition {
            sheet: self,
            begun: Begun::new(heading),
        }
    }
}

impl Definition<'_> {
    /// Takes one more entry, or says why not, and then nothing changes.
    pub fn enter(&mut self, value: i64) -> Result<(), Fault>
        ensures lends { self.new.sheet.ghost_name ≡ self.old.sheet.ghost_name }
        ensures fault { result_err result
            ≡ option_map sheet_fault (entry_refusal (begun self.old.begun) value) }
        ensures stays { held self.new.sheet.now ≡ held self.old.sheet.now }
        ensures after { begun self.new.begun
            ≡ (if is_ok result then push (begun self.old.begun) value else begun self.old.begun) }
    {
        self.begun.enter(value).map_err(refused)
    }

    /// How many entries are in.
    pub fn filled(&self) -> usize
        ensures value { result ≡ length (begun self.now.begun).entries }
        ensures bound { result ≤ 288 }
    {
        self.begun.count()
    }

    /// Whether a closing would be accepted now.
    pub fn check(&self) -> Result<(), Fault>
        ensures { result_err result
            ≡ option_map sheet_fault (close_refusal (begun self.now.begun)) }
    {
        self.begun.check().map_err(refused)
    }

    /// Ends the definition; the sheet is empty.
    pub fn cancel(self)
        ensures { held self.exit.0.now ≡ None }
    {
        let Definition { sheet, begun: _ } = self;
        sheet.table = None;
    }

    /// Ends the definition: the sheet holds the table if all entries are in, and is empty if not.
    pub fn close(self) -> Result<(), Fault>
        ensures fault { result_err result
            ≡ option_map sheet_fault (close_refusal (begun self.entry.begun)) }
        ensures after { held self.exit.0.now
            ≡ (if is_ok result then Some (begun self.entry.begun) else None) }
    {
        let Definition { sheet, begun } = self;
        sheet.table = None;
        // The table goes straight into the sheet: a result that is looked at twice would be copied twice.
        sheet.table = Some(Table::try_from(begun).map_err(refused)?);
        Ok(())
    }
}
