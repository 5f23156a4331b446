//! A text, read into a sheet and written back.
ghost use Rattle.std.specs.Prelude.{◌≡◌, None, Err, MatchResult};
ghost use Rattle.sheets.specs.Tables.{held};
ghost use Rattle.table_text.specs.TableTexts.{reading, opens, sheet_after};
ghost use Rattle.text_law.specs.Copies.{copying, copied_row, Same};
ghost use Rattle.text_law.specs.TextLaw.{TextLaw};

use faults::fault::Fault;
use sheets::sheet::Sheet;
use table_text::table::read_text;
use table_writing::write::write_text;

/// Reads a text into a sheet: one that is accepted is the text of the table that the sheet then holds.
fn read_table(sheet: &mut Sheet, text: &[u8]) -> Result<(), Fault>
    ensures answer { MatchResult result
        (λ _. Same text.now (held sheet.new))
        (λ f. reading text.now ≡ Err f) }
    ensures after { held sheet.new ≡ sheet_after (held sheet.old) text.now }
    ensures stays { opens text.now ≡ None → sheet.new ≡ sheet.old }
    ensures law { TextLaw }
{
    read_text(sheet, text)
}

// What it says of the sheet is what the calls below it say: a type could not, since it speaks of before and after.
/// Reads a text into a sheet and writes the sheet into a row: a text that is accepted comes back byte for byte.
pub fn copy_text(sheet: &mut Sheet, text: &[u8], out: &mut [u8]) -> Result<usize, Fault>
    ensures answer { result ≡ copying text.now out.old }
    ensures row { out.new ≡ copied_row text.now out.old }
    ensures after { held sheet.new ≡ sheet_after (held sheet.old) text.now }
    ensures stays { opens text.now ≡ None → sheet.new ≡ sheet.old }
    ensures law { TextLaw }
{
    read_table(sheet, text)?;
    write_text(sheet, out)
}
