//! How a table is filled, entry by entry.
ghost use Rattle.std.specs.Prelude.{◌≡◌, ◌≤◌, length, if◌then◌else◌, None, is_ok, nat_le, unsigned_abs};
ghost use Rattle.std.specs.Result.{result_err, result_map_both};
ghost use Rattle.headings.specs.Heads.{head_of};
ghost use Rattle.sheets.specs.Tables.{begun, fresh, push, table_of, entry_refusal, close_refusal, closing};

use crate::begun::Begun;
use crate::table::Table;
use faults::fault::Refusal;
use filled::filled::Filled;
use headings::heading::Heading;

/// Whether a value is in the range of an entry.
fn is_narrow(value: i64) -> bool
    ensures { result ≡ nat_le (unsigned_abs value) 32767 }
{
    value.unsigned_abs() <= 32767
}

impl Begun {
    /// A table with no entries yet.
    pub(crate) fn new(heading: Heading) -> Begun
        ensures { begun result ≡ fresh (head_of heading) }
    {
        Begun {
            heading,
            entries: Filled::empty(0),
        }
    }

    // The bound is what public calls promise of a count; a type for it would be opened by each of them.
    /// How many entries are in.
    pub(crate) fn count(&self) -> usize
        ensures value { result ≡ length (begun self.now).entries }
        ensures bound { result ≤ 288 }
    {
        self.entries.items().len()
    }

    /// Whether an entry is taken: not where all are in, and then not out of its range.
    fn check_entry(&self, value: i64) -> Result<(), Refusal>
        ensures { result_err result ≡ entry_refusal (begun self.now) value }
    {
        if self.count() >= self.heading.entries() {
            return Err(Refusal::TooManyEntries);
        }
        if !is_narrow(value) {
            return Err(Refusal::OutOfRange);
        }
        Ok(())
    }

    /// Stores an entry behind those that are in.
    fn store(&mut self, value: i64)
        requires { entry_refusal (begun self.old) value ≡ None }
        ensures { begun self.new ≡ push (begun self.old) value }
    {
        self.entries.push(value as i16);
    }

    /// Takes one more entry, or says why not, and then nothing changes.
    pub(crate) fn enter(&mut self, value: i64) -> Result<(), Refusal>
        ensures refusal { result_err result ≡ entry_refusal (begun self.old) value }
        ensures after { begun self.new
            ≡ (if is_ok result then push (begun self.old) value else begun self.old) }
    {
        self.check_entry(value)?;
        self.store(value);
        Ok(())
    }

    /// Whether all entries are in.
    pub(crate) fn check(&self) -> Result<(), Refusal>
        ensures { result_err result ≡ close_refusal (begun self.now) }
    {
        if self.count() != self.heading.entries() {
            return Err(Refusal::Incomplete);
        }
        Ok(())
    }
}

/// The table, if all entries are in.
impl TryFrom<Begun> for Table {
    type Error = Refusal;

    ghost try_from_gives = { λ b r. result_map_both table_of (λ f. f) r ≡ closing (begun b) };

    fn try_from(begun: Begun) -> Result<Table, Refusal> {
        begun.check()?;
        Ok(Table { begun })
    }
}
