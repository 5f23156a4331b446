//! The readings of a text, one a line.
ghost use Rattle.std.specs.Prelude.{◌+◌, ◌≤◌, length};

use crate::input::read_reading;
use faults::fault::Refusal;
use lines::line::split_line;

/// The readings of what is left of a text, each with the number of its line. What stands behind
/// the last line end is a line of wrong form.
#[derive(Drop)]
pub(crate) struct Readings<'a> {
    pub(crate) line: usize,
    pub(crate) rest: &'a [u8],
    ghost room: { line + length rest.now ≤ 100000 },
}

impl Iterator for Readings<'_> {
    ghost use Rattle.std.specs.Iterator.{YieldsFirst, item_count};
    ghost use Rattle.offset_report.specs.Inputs.{readings_left};

    // A pair, as `enumerate` gives one: each user of a struct would take it apart at once.
    type Item = (usize, Result<u32, Refusal>);

    ghost next_gives = { YieldsFirst readings_left };

    ghost remaining = { item_count readings_left };

    fn next(&mut self) -> Option<(usize, Result<u32, Refusal>)> {
        if self.rest.is_empty() {
            return None;
        }
        let line = self.line;
        let (reading, rest) = match split_line(self.rest) {
            Some((text, rest)) => (read_reading(text), rest),
            None => (Err(Refusal::WrongForm), b"".as_slice()),
        };
        self.rest = rest;
        self.line += 1;
        Some((line, reading))
    }
}
