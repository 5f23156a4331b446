//! A number read from a text: no plus sign, no leading zero, no minus before 0.
ghost use Rattle.std.specs.Prelude.{◌≡◌, ◌≤◌, true, false, length, IfSome, MatchOption};
ghost use Rattle.std.specs.Option.{option_map};
ghost use Rattle.numerals.specs.Numbers.{front, worth, plain, read_number, read_whole, read_unsigned};

/// A size that no range reaches, and at which digits stop counting.
const MOST: u64 = 10_000_000_000;

/// The number that digits write, and how many digits there are.
#[derive(Clone, Copy)]
struct Run {
    size: u64,
    width: usize,
}

// In one pass, and not by `take_while` and a sum over what it took: every entry and every reading comes through here.
/// The digits that a text begins with.
#[tactic(auto, using(crate::proofs::Fronts::front_more, crate::proofs::Fronts::front_stop, crate::proofs::Fronts::front_end))]
fn digits(text: &[u8]) -> Run
    ensures width { result.width ≡ length (front text.now) }
    ensures size { result.size ≡ worth 0 (front text.now) }
    ensures most { result.size ≤ 10000000000 }
    ensures within { result.width ≤ length text.now }
{
    let mut size = 0;
    let mut width = 0;
    for c in text {
        if !c.is_ascii_digit() {
            break;
        }
        size = (size * 10 + u64::from(c - b'0')).min(MOST);
        width += 1;
    }
    Run { size, width }
}

/// Whether digits write a number with no leading zero.
fn is_plain(digits: &[u8]) -> bool
    ensures { result ≡ plain digits.now }
{
    !digits.is_empty() && (digits[0] != b'0' || digits.len() == 1)
}

/// Digits with no leading zero.
#[tactic(auto, using(crate::proofs::Fronts::front_taken))]
fn unsigned(text: &[u8]) -> Option<Run>
    ensures { MatchOption result
        (plain (front text.now) ≡ false)
        (λ n. (plain (front text.now) ≡ true)
        × (n.width ≡ length (front text.now))
        × (n.size ≡ worth 0 (front text.now))
        × (n.size ≤ 10000000000)
        × (n.width ≤ length text.now)) }
{
    let run = digits(text);
    is_plain(&text[..run.width]).then_some(run)
}

/// The number that a text begins with, and how many bytes it takes. One whose size is past 10,000,000,000 is read as of that size, which no range reaches.
#[derive(Clone, Copy)]
pub struct Number {
    pub value: i64,
    pub width: usize,
}

pub fn read_number(text: &[u8]) -> Option<Number>
    ensures reads { option_map (λ n. (n.value, n.width)) result ≡ read_number text.now }
    ensures bound { IfSome result (λ n. n.width ≤ length text.now) }
{
    let [b'-', rest @ ..] = text else {
        let run = unsigned(text)?;
        return Some(Number {
            value: run.size as i64,
            width: run.width,
        });
    };
    let run = unsigned(rest)?;
    if run.size == 0 {
        return None;
    }
    Some(Number {
        value: -(run.size as i64),
        width: run.width + 1,
    })
}

/// A line, without its end, that is a number and nothing else.
pub fn read_whole(line: &[u8]) -> Option<i64>
    ensures { result ≡ read_whole line.now }
{
    let number = read_number(line)?;
    (number.width == line.len()).then_some(number.value)
}

/// A line, without its end, that is a number with no minus and nothing else.
pub fn read_unsigned(line: &[u8]) -> Option<u64>
    ensures { result ≡ read_unsigned line.now }
{
    let run = unsigned(line)?;
    (run.width == line.len()).then_some(run.size)
}
