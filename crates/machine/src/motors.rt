//! The records of the eight motors, of which each change lends one.
ghost use Rattle.std.specs.Prelude.{◌≡◌, map, slice_index_or};
ghost use Rattle.motor.specs.Motors.{fresh, view};
ghost use Rattle.machine.specs.Records.{ChangedBy};

use crate::axis::Axis;
use motor::motor::Motor;

/// Eight motors, of which those of present axes are used.
// An array, whatever number of axes there is: the control core takes no memory.
#[derive(Clone, Copy)]
pub struct Motors {
    pub(crate) records: [Motor; 8],
}

impl Motors {
    // The record of an axis.
    pub(crate) fn get(&self, axis: Axis) -> Motor
        ensures { view result ≡ slice_index_or (map view self.now.records) axis.number fresh }
    {
        self.records[axis.number]
    }

    // Lends the record of an axis to a change.
    pub(crate) fn change<R, F: FnOnce(&mut Motor) -> R>(&mut self, axis: Axis, change: F) -> R
        requires { F.IsAlwaysCallable change }
        ensures { ChangedBy F.FnOnce change axis.number self.old.records result self.new.records }
    {
        let motor = &mut self.records[axis.number];
        change(motor)
    }
}
