//! What the calls of a machine do to one motor.
ghost use Rattle.std.specs.Prelude.{◌≡◌, if◌then◌else◌};
ghost use Rattle.motor.specs.States.{is_closed};
ghost use Rattle.motor.specs.Motors.{following_error, given, sent, switched, view};

use crate::motor::Motor;
use servo::gains::Gains;
use servo::place::Place;

impl Motor {
    /// Gives other gains to a motor that is not closed.
    pub fn set_gains(&mut self, gains: Gains)
        ensures { view self.new ≡
            (if is_closed self.old.state then view self.old
            else given gains.settings (view self.old)) }
    {
        if !self.is_closed() {
            self.gains = gains;
        }
    }

    /// Sends a motor to a target.
    pub fn send_to(&mut self, target: Place)
        ensures { view self.new ≡ sent target.at (view self.old) }
    {
        self.memory.send_to(target);
    }

    /// Switches the correction of a motor on or off.
    pub fn switch(&mut self, on: bool)
        ensures { view self.new ≡ switched on (view self.old) }
    {
        self.correction = on;
    }

    /// How far a closed motor at x is from its target; 0 for one that is not closed.
    pub fn following_error(&self, x: Place) -> i64
        ensures { result ≡ following_error x.at (view self.now) }
    {
        if self.is_closed() {
            self.memory.target - x
        } else {
            0
        }
    }
}
