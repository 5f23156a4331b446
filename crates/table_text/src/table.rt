//! A table text, read into a sheet.
ghost use Rattle.std.specs.Prelude.{◌≡◌, None, Ok, Err, MatchResult};
ghost use Rattle.std.specs.Result.{result_err, result_ok};
ghost use Rattle.headings.specs.Heads.{head_of};
ghost use Rattle.lines.specs.Lines.{cut};
ghost use Rattle.sheets.specs.Tables.{begun, fresh, held, close_refusal};
ghost use Rattle.table_text.specs.TableTexts.{read_body, read_on, reading, opens, sheet_after};

use crate::heading::read_heading;
use crate::in_line::refused_in;
use faults::fault::{Fault, Refusal};
use headings::heading::Heading;
use lines::line::{is_close, split_line};
use numerals::number::read_whole;
use sheets::definition::Definition;
use sheets::sheet::Sheet;

/// Fills a definition by the lines of a text, up to a CLOSE that ends it.
fn fill(definition: &mut Definition<'_>, text: &[u8]) -> Result<(), Fault>
    ensures lends { definition.new.sheet.ghost_name ≡ definition.old.sheet.ghost_name }
    ensures stays { held definition.new.sheet.now ≡ held definition.old.sheet.now }
    ensures end { MatchResult result
        (λ _. (read_on (begun definition.old.begun) text.now ≡ Ok (begun definition.new.begun))
        × (close_refusal (begun definition.new.begun) ≡ None))
        (λ f. read_on (begun definition.old.begun) text.now ≡ Err f) }
{
    // Not a `for` over lines: what follows a CLOSE is looked at too, and so is what is left without a line's end.
    let mut rest = text;
    while let Some((line, after)) = split_line(rest) {
        let at = definition.filled() + 2;
        if is_close(line) {
            refused_in(definition.check(), at)?;
            if !after.is_empty() {
                return Err(Fault::in_text(Refusal::WrongForm, at + 1));
            }
            return Ok(());
        }
        let value = read_whole(line).ok_or(Fault::in_text(Refusal::WrongForm, at))?;
        refused_in(definition.enter(value), at)?;
        rest = after;
    }
    let at = definition.filled() + 2;
    if rest.is_empty() {
        return Err(Fault::in_text(Refusal::Incomplete, at));
    }
    Err(Fault::in_text(Refusal::WrongForm, at))
}

/// Defines a sheet by the lines after the heading: all of them, or the sheet is left empty.
fn read_body(sheet: &mut Sheet, heading: Heading, text: &[u8]) -> Result<(), Fault>
    ensures fault { result_err result
        ≡ result_err (read_body (fresh (head_of heading)) 2 (cut text.now).lines
        (cut text.now).left) }
    ensures after { held sheet.new
        ≡ result_ok (read_body (fresh (head_of heading)) 2 (cut text.now).lines
        (cut text.now).left) }
{
    let mut definition = sheet.open(heading);
    let filled = fill(&mut definition, text);
    if filled.is_err() {
        definition.cancel();
        return filled;
    }
    definition.close()
}

/// Reads a table's text into a sheet. A text refused at its heading leaves the sheet as it stood, and one refused later leaves it empty.
pub fn read_text(sheet: &mut Sheet, text: &[u8]) -> Result<(), Fault>
    ensures fault { result_err result ≡ result_err (reading text.now) }
    ensures after { held sheet.new ≡ sheet_after (held sheet.old) text.now }
    ensures stays { opens text.now ≡ None → sheet.new ≡ sheet.old }
{
    let (line, rest) = split_line(text).ok_or(Fault::in_text(Refusal::WrongForm, 1))?;
    let heading = read_heading(line)?;
    read_body(sheet, heading, rest)
}
