//! A sheet's text, written into a row of bytes.
ghost use Rattle.std.specs.Prelude.{◌≡◌, [], ◌∷◌, ◌++◌, map};
ghost use Rattle.std.specs.Fmt.{signed_decimal};
ghost use Rattle.filled.specs.Items.{items};
ghost use Rattle.lines.specs.Lines.{CLOSE, joined_lines};
ghost use Rattle.sheets.specs.Tables.{table_of, held};
ghost use Rattle.table_writing.specs.Pages.{clip};
ghost use Rattle.table_writing.specs.TableTexts.{text_of, writing, row_after};

use crate::heading::put_heading;
use crate::page::{Page, put_line};
use faults::fault::{Fault, Part, Refusal};
use filled::filled::Filled;
use sheets::sheet::Sheet;
use sheets::table::Table;

/// A line for each entry.
fn put_entries(page: &mut Page, entries: &[i16])
    ensures { items page.new
        ≡ clip (items page.old ++ joined_lines (map signed_decimal entries.now) []) }
{
    for value in entries {
        put_line(page, *value);
    }
}

/// The line that ends a table.
fn put_close(page: &mut Page)
    ensures { items page.new ≡ clip (items page.old ++ (CLOSE ++ 10 ∷ [])) }
{
    page.extend(b"CLOSE\n");
}

/// A page with a table's text.
fn page_of(table: &Table) -> Page
    ensures { items result ≡ text_of (table_of table.now) }
{
    let mut page = Filled::empty(0);
    put_heading(&mut page, table.heading());
    page.push(b'\n');
    put_entries(&mut page, table.entries());
    put_close(&mut page);
    page
}

/// Writes a complete sheet's text at the front of a row, and says how long it is. The rest of the row stays, and all of it where the writing is refused.
pub fn write_text(sheet: &Sheet, out: &mut [u8]) -> Result<usize, Fault>
    ensures answer { result ≡ writing (held sheet.now) out.old }
    ensures row { out.new ≡ row_after (held sheet.now) out.old }
{
    let table = sheet
        .table()
        .ok_or(Fault::of(Part::Sheet, Refusal::Incomplete))?;
    let page = page_of(table);
    let text = page.items();
    let length = text.len();
    if length > out.len() {
        return Err(Fault::of(Part::Sheet, Refusal::WrongLength));
    }
    out[..length].copy_from_slice(text);
    Ok(length)
}
