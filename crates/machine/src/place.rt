//! Where the motor of an axis is.
ghost use Rattle.std.specs.Prelude.{◌≡◌, []};
ghost use Rattle.rounding.specs.Bounds.{Within};
ghost use Rattle.motor.specs.Motors.{view};
ghost use Rattle.mill.specs.Mills.{motor_at, position_at};
ghost use Rattle.machine.specs.Machines.{mill_of};

use crate::axis::Present;
use layers::below::{offset_below, position};
use motor::motor::Motor;
use servo::place::Place;
use source::source::Source;

// A position within the reach of an axis and its layers.
fn standing(z: i64) -> Place
    requires { Within 1099512152048 z }
    ensures { result.at ≡ z }
{
    Place { at: z }
}

impl<S: Source> Present<'_, S> {
    // The motor of an axis.
    pub(crate) fn motor(&self) -> Motor
        ensures { let mill = mill_of S.Source.means self.now.machine.now in
            view result ≡ motor_at self.now.axis.number mill }
    {
        self.machine.inner.get(self.axis)
    }

    // The bare position of an axis.
    pub(crate) fn bare(&self) -> i64
        ensures value { let seen = S.Source.means self.now.machine.now.source [] in
            result ≡ seen.bare self.now.axis.number }
        ensures near { Within 1099511627776 result }
    {
        position(&self.machine.source, self.axis.number)
    }

    // The offset of an axis.
    pub(crate) fn offset(&self) -> i64
        ensures value { let seen = S.Source.means self.now.machine.now.source [] in
            result ≡ seen.offset self.now.axis.number }
        ensures near { Within 524272 result }
    {
        offset_below(&self.machine.source, self.axis.number).unwrap()
    }

    // The position that the motor of an axis works with.
    pub(crate) fn place(&self) -> Place
        ensures { let mill = mill_of S.Source.means self.now.machine.now in
            result.at ≡ position_at self.now.axis.number mill }
    {
        let bare = self.bare();
        if self.motor().correction {
            standing(bare + self.offset())
        } else {
            standing(bare)
        }
    }
}
