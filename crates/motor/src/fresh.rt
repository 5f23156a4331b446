//! A motor that was not used yet, and whether one is closed.
ghost use Rattle.std.specs.Prelude.{◌≡◌};
ghost use Rattle.motor.specs.States.{is_closed};
ghost use Rattle.motor.specs.Motors.{fresh, view};

use crate::motor::Motor;
use crate::state::State;
use notch::notch::Notch;
use servo::gains::Gains;
use servo::memory::Memory;

impl Motor {
    /// A motor that was not used yet: killed, with the correction switch off.
    pub fn fresh() -> Motor
        ensures { view result ≡ fresh }
    {
        Motor {
            state: State::Killed,
            correction: false,
            gains: Gains::fresh(),
            memory: Memory::at_rest(),
            notch: Notch::at_rest(),
            output: 0,
        }
    }

    /// Whether its servo runs.
    pub fn is_closed(&self) -> bool
        ensures { result ≡ is_closed self.now.state }
    {
        matches!(self.state, State::Closed)
    }
}
