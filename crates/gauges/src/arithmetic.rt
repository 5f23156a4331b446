//! The arithmetic of one reading, in types that no step can overflow whatever the axis holds.
ghost use Rattle.std.specs.Prelude.{◌≡◌, pos, ◌+ℤ◌, ◌*ℤ◌};
ghost use Rattle.gauges.specs.Gauges.{turn, travel, place};

use crate::gauge::{Axis, Gauge};

// How many counts an encoder has, from 0 to one less than this.
pub(crate) const TURN: u32 = 16_777_216;

const HALF: u32 = TURN / 2;

// The shorter way round from the last reading to this one, in counts.
fn turned(reading: u32, last: u32) -> i32
    ensures { result ≡ turn reading last }
{
    let counts = (i64::from(reading) - i64::from(last)).rem_euclid(i64::from(TURN));
    if counts < i64::from(HALF) {
        counts as i32
    } else {
        (counts - i64::from(TURN)) as i32
    }
}

// A move in counts as one in sixteenths of a count.
fn sixteenths(counts: i32) -> i64
    ensures { result ≡ pos 16 *ℤ counts }
{
    16 * i64::from(counts)
}

fn grown(position: i64, by: i64) -> i128
    ensures { result ≡ position +ℤ by }
{
    i128::from(position) + i128::from(by)
}

impl Gauge {
    // How far the reading moves the axis, in the gauge's own unit.
    pub(crate) fn travel(self, axis: Axis, reading: u32) -> i128
        ensures { result ≡ travel self axis reading }
    {
        match self {
            Gauge::Encoder => i128::from(turned(reading, axis.last)),
            Gauge::Scale => i128::from(reading.cast_signed()) - i128::from(axis.position),
        }
    }

    // Where the reading puts the axis.
    pub(crate) fn place(self, axis: Axis, reading: u32) -> i128
        ensures { result ≡ place self axis reading }
    {
        match self {
            Gauge::Encoder => grown(axis.position, sixteenths(turned(reading, axis.last))),
            Gauge::Scale => i128::from(reading.cast_signed()),
        }
    }
}
