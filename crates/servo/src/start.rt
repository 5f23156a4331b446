//! A servo's memory as an axis is closed, killed or sent elsewhere.
ghost use Rattle.std.specs.Prelude.{◌≡◌};
ghost use Rattle.servo.specs.Memories.{memory_of, nothing, starting, sent_to};

use crate::memory::Memory;
use crate::place::Place;
use crate::rate::Rate;

impl Memory {
    /// The memory of an axis that is not closed: all 0.
    pub fn at_rest() -> Memory
        ensures { memory_of result ≡ nothing }
    {
        Memory::starting(Place { at: 0 })
    }

    /// The memory of an axis that is closed at x.
    pub fn starting(x: Place) -> Memory
        ensures { memory_of result ≡ starting x.at }
    {
        Memory {
            target: x,
            last_target: x,
            last_position: x,
            last_velocity: Rate { at: 0 },
            integrator: 0,
        }
    }

    /// Sends the axis to another target.
    pub fn send_to(&mut self, target: Place)
        ensures { memory_of self.new ≡ sent_to target.at (memory_of self.old) }
    {
        self.target = target;
    }
}
