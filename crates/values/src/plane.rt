//! The value of a plane.
ghost use Rattle.std.specs.Prelude.{◌≡◌, ◌+◌, ◌-◌, ◌*◌, ◌^◌, ◌<◌, ◌≤◌, length, pos, ◌+ℤ◌, ◌*ℤ◌, unsigned_abs};
ghost use Rattle.rounding.specs.Round.{rounded};
ghost use Rattle.values.specs.Values.{corner, plane_numerator};

use crate::interpolation::{between, nearest};
use crate::place::{Place, locate};
use headings::heading::Plane;

/// No edge is larger: an entry is at most 2^15 in size, and a span of a plane at most 2^22 sixteenths.
const EDGE: u64 = 1 << 37;

/// A plane and its entries: one for each corner but the first.
#[derive(Clone, Copy)]
pub(crate) struct PlaneTable<'a> {
    pub(crate) plane: Plane,
    pub(crate) entries: &'a [i16],
    ghost whole: { length entries.now ≡ (plane.rows + 1) * (plane.columns + 1) - 1 },
}

impl PlaneTable<'_> {
    /// A corner of the plane: 0 at the first, and from there on the entries, row by row.
    fn corner(&self, row: usize, column: usize) -> i64
        requires row { row ≤ self.now.plane.rows }
        requires column { column ≤ self.now.plane.columns }
        ensures value { result ≡ corner self.now.plane.columns self.now.entries.now row column }
        ensures size { unsigned_abs result ≤ 32768 }
    {
        let index = row * (usize::from(self.plane.columns) + 1) + column;
        if index == 0 {
            0
        } else {
            i64::from(self.entries[index - 1])
        }
    }

    /// What lies between two rows, at one of the columns.
    fn edge(&self, place: Place, column: usize) -> i64
        requires row { place.index < self.now.plane.rows }
        requires weights { place.left + place.gone ≤ 2 ^ 22 }
        requires column { column ≤ self.now.plane.columns }
        ensures value { result
            ≡ corner self.now.plane.columns self.now.entries.now place.index column
            *ℤ pos place.left
            +ℤ corner self.now.plane.columns self.now.entries.now (place.index + 1) column
            *ℤ pos place.gone }
        ensures size { unsigned_abs result ≤ 2 ^ 37 }
    {
        let first = self.corner(place.index, column);
        let second = self.corner(place.index + 1, column);
        between::<32768>(place, first, second)
    }

    /// The numerator of the plane's value, over the product of its spans in sixteenths.
    fn numerator(&self, row: i64, column: i64) -> i64
        ensures value { result
            ≡ plane_numerator self.now.plane.rows self.now.plane.columns self.now.entries.now
            (16 * self.now.plane.row_span) (16 * self.now.plane.column_span) row column }
        ensures size { unsigned_abs result ≤ 2 ^ 60 }
    {
        let plane = self.plane;
        let down = locate(row, 16 * plane.row_span, u32::from(plane.rows));
        let along = locate(column, 16 * plane.column_span, u32::from(plane.columns));
        let first = self.edge(down, along.index);
        let second = self.edge(down, along.index + 1);
        between::<EDGE>(along, first, second)
    }

    /// The plane's value at a position of each axis, to the nearest whole number.
    pub(crate) fn value(&self, row: i64, column: i64) -> i64
        ensures { result ≡ rounded
            (plane_numerator self.now.plane.rows self.now.plane.columns self.now.entries.now
            (16 * self.now.plane.row_span) (16 * self.now.plane.column_span) row column)
            (pos ((16 * self.now.plane.row_span) * (16 * self.now.plane.column_span))) }
    {
        let rows = 16 * u64::from(self.plane.row_span);
        let columns = 16 * u64::from(self.plane.column_span);
        nearest(self.numerator(row, column), rows * columns)
    }
}
