//! The value of a screw table.
ghost use Rattle.std.specs.Prelude.{◌≡◌, ◌*◌, ◌≤◌, length, pos, unsigned_abs};
ghost use Rattle.rounding.specs.Round.{rounded};
ghost use Rattle.values.specs.Values.{vertex, screw_numerator};

use crate::interpolation::{between, nearest};
use crate::place::locate;
use headings::heading::Screw;

/// A screw table and its entries, as many as it has.
#[derive(Clone, Copy)]
pub(crate) struct ScrewTable<'a> {
    pub(crate) screw: Screw,
    pub(crate) entries: &'a [i16],
    ghost whole: { length entries.now ≡ screw.entries },
}

impl ScrewTable<'_> {
    /// A vertex of the screw: an entry, counted from 1, and at 0 the last one.
    fn vertex(&self, index: usize) -> i64
        requires { index ≤ length self.now.entries.now }
        ensures value { result ≡ vertex (length self.now.entries.now) self.now.entries.now index }
        ensures size { unsigned_abs result ≤ 32768 }
    {
        let entries = self.entries;
        if index == 0 {
            i64::from(entries[entries.len() - 1])
        } else {
            i64::from(entries[index - 1])
        }
    }

    /// The screw's value at a position, to the nearest whole number.
    pub(crate) fn value(&self, position: i64) -> i64
        ensures { result ≡ rounded
            (screw_numerator self.now.screw.entries self.now.entries.now
            (16 * self.now.screw.span) position)
            (pos (16 * self.now.screw.span)) }
    {
        let span = 16 * self.screw.span;
        let place = locate(position, span, u32::from(self.screw.entries));
        let first = self.vertex(place.index);
        let second = self.vertex(place.index + 1);
        nearest(between::<32768>(place, first, second), u64::from(span))
    }
}
