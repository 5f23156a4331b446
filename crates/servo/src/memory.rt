//! What a servo remembers.
ghost use Rattle.std.specs.Prelude.{◌^◌, ◌≤◌, unsigned_abs};

use crate::place::Place;
use crate::rate::Rate;

/// Where the axis is sent, and what its servo keeps from the last cycle.
#[derive(Clone, Copy)]
pub struct Memory {
    pub target: Place,
    pub last_target: Place,
    pub last_position: Place,
    pub last_velocity: Rate,
    pub integrator: i64,
    ghost bounded: { unsigned_abs integrator ≤ 2 ^ 46 },
}
