//! A heading line, read.
ghost use Rattle.std.specs.Prelude.{◌≡◌, length, map};
ghost use Rattle.std.specs.Option.{option_map};
ghost use Rattle.std.specs.Result.{result_map_both};
ghost use Rattle.lines.specs.Fields.{read_fields};
ghost use Rattle.headings.specs.Heads.{head_of};
ghost use Rattle.table_text.specs.HeadingTexts.{screw_leads, plane_leads, screw_numbers, plane_numbers, screw_read, plane_read, read_heading};

use crate::in_line::refused_in;
use faults::fault::{Fault, Refusal};
use headings::heading::{Heading, Plane, Screw};
use headings::numbers::{PlaneNumbers, ScrewNumbers};
use lines::field::field;

/// The numbers of a line that has one after each of the leads, and nothing else.
// A clause for the count: an array of references whose length is a parameter is not covered by the borrow checker.
fn fields<const N: usize>(line: &[u8], leads: &[&[u8]]) -> Option<[i64; N]>
    requires { length leads.now ≡ N }
    ensures { result ≡ read_fields (map (λ l. l.now) leads.now) line.now }
{
    // By place: zipped with the row lent out, the loop would say of a borrow what it says of a list.
    let mut numbers = [0; N];
    let mut rest = line;
    for (i, lead) in leads.iter().enumerate() {
        let (number, after) = field(rest, lead)?;
        numbers[i] = number;
        rest = after;
    }
    rest.is_empty().then_some(numbers)
}

/// The numbers of a screw table's heading, as they stand.
fn screw_numbers(line: &[u8]) -> Option<ScrewNumbers>
    ensures { result ≡ option_map screw_numbers (read_fields screw_leads line.now) }
{
    let [entries, source, target, span] = fields::<4>(
        line,
        &[b"DEFINE COMP ", b",#", b",#", b","],
    )?;
    Some(ScrewNumbers {
        entries,
        source,
        target,
        span,
    })
}

/// The numbers of a plane's heading, as they stand.
fn plane_numbers(line: &[u8]) -> Option<PlaneNumbers>
    ensures { result ≡ option_map plane_numbers (read_fields plane_leads line.now) }
{
    let [
        rows,
        columns,
        row_motor,
        column_motor,
        target,
        row_span,
        column_span,
    ] = fields::<7>(
        line,
        &[b"DEFINE COMP ", b".", b",#", b",#", b",#", b",", b","],
    )?;
    Some(PlaneNumbers {
        rows,
        columns,
        row_motor,
        column_motor,
        target,
        row_span,
        column_span,
    })
}

/// A table's heading line, without its end.
#[tactic(auto, using(crate::proofs::Headings::heading_none))]
pub(crate) fn read_heading(line: &[u8]) -> Result<Heading, Fault>
    ensures { result_map_both head_of (λ f. f) result ≡ read_heading line.now }
{
    if let Some(numbers) = screw_numbers(line) {
        return refused_in(Screw::try_from(numbers), 1).map(Heading::Screw);
    }
    let numbers = plane_numbers(line).ok_or(Fault::in_text(Refusal::WrongForm, 1))?;
    refused_in(Plane::try_from(numbers), 1).map(Heading::Plane)
}
