//! How an input is cut.
ghost use Rattle.std.specs.Prelude.{◌≡◌, ◌≤◌, length, take, drop};
ghost use Rattle.offset_report.specs.Inputs.{table_length, reading_of};

use faults::fault::Refusal;
use lines::line::{is_close, split_line};
use numerals::number::read_unsigned;

/// How much of an input is read.
const INPUT_LIMIT: usize = 65_536;

/// How many bytes the table text at the front of an input takes.
#[tactic(auto, using(crate::proofs::Lengths::table_lengths))]
fn table_length(input: &[u8]) -> usize
    ensures value { result ≡ table_length input.now }
    ensures bound { result ≤ length input.now }
{
    // A chain over the lines would add up their lengths, which here the text behind the line tells.
    let mut rest = input;
    while let Some((line, after)) = split_line(rest) {
        if is_close(line) {
            return input.len() - after.len();
        }
        rest = after;
    }
    input.len()
}

/// The part of an input that is read.
#[tactic(auto, using(std::proofs::lemmas::List::take_min))]
fn read_part(input: &[u8]) -> &[u8]
    ensures value { result.now ≡ take 65536 input.now }
    ensures bound { length result.now ≤ 65536 }
{
    &input[..INPUT_LIMIT.min(input.len())]
}

/// Cuts the part of an input that is read behind its table text.
pub(crate) fn cut_input(input: &[u8]) -> (&[u8], &[u8])
    ensures table { let front = take 65536 input.now in
        result.0.now ≡ take (table_length front) front }
    ensures readings { let front = take 65536 input.now in
        result.1.now ≡ drop (table_length front) front }
    ensures bound { length result.1.now ≤ 65536 }
{
    let input = read_part(input);
    let end = table_length(input);
    input.split_at(end)
}

/// A reading line, without its end.
pub(crate) fn read_reading(line: &[u8]) -> Result<u32, Refusal>
    ensures { result ≡ reading_of line.now }
{
    let number = read_unsigned(line).ok_or(Refusal::WrongForm)?;
    u32::try_from(number).map_err(|_| Refusal::OutOfRange)
}
