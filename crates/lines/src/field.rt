//! A number within a line, after the text that leads to it.
ghost use Rattle.std.specs.Prelude.{◌≡◌};
ghost use Rattle.std.specs.Option.{option_map};
ghost use Rattle.lines.specs.Fields.{strip, read_first, read_field};

use numerals::number::read_number;

/// What follows a lead.
fn after_lead<'a>(text: &'a [u8], lead: &[u8]) -> Option<&'a [u8]>
    ensures { option_map (λ x. x.now) result ≡ strip lead.now text.now }
{
    text.strip_prefix(lead)
}

/// The number that a text begins with, and what follows it.
fn number_first(text: &[u8]) -> Option<(i64, &[u8])>
    ensures { option_map (λ x. (x.0, x.1.now)) result ≡ read_first text.now }
{
    let number = read_number(text)?;
    Some((number.value, &text[number.width..]))
}

/// A number after a lead, and what follows it.
pub fn field<'a>(text: &'a [u8], lead: &[u8]) -> Option<(i64, &'a [u8])>
    ensures { option_map (λ x. (x.0, x.1.now)) result ≡ read_field lead.now text.now }
{
    let rest = after_lead(text, lead)?;
    number_first(rest)
}
