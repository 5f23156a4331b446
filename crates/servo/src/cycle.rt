//! One cycle of a closed axis: its error and its velocities.
ghost use Rattle.servo.specs.Memories.{memory_of};

use crate::arith::{clip, exceeds};
use crate::gains::Gains;
use crate::memory::Memory;
use crate::place::Place;
use crate::rate::Rate;

// A cycle at x: its gains, what is remembered before, and whether the last output was at its limit.
#[derive(Clone, Copy)]
pub(crate) struct Cycle<'a> {
    pub(crate) gains: &'a Gains,
    pub(crate) before: Memory,
    pub(crate) saturated: bool,
    pub(crate) x: Place,
}

impl Cycle<'_> {
    ghost use Rattle.std.specs.Prelude.{◌≡◌};
    ghost use Rattle.servo.specs.Step.{actual, commanded, error, is_lost};

    // Is the following error beyond its limit?
    pub(crate) fn is_lost(&self) -> bool
        ensures { result ≡
            is_lost self.now.gains.now.settings (memory_of self.now.before) self.now.x.at }
    {
        exceeds(
            self.before.target - self.x,
            self.gains.settings.following_limit,
        )
    }

    // The following error, clipped.
    pub(crate) fn error(&self) -> Rate
        ensures { result.at ≡
            error self.now.gains.now.settings (memory_of self.now.before) self.now.x.at }
    {
        Rate {
            at: clip(self.before.target - self.x, self.gains.settings.error_limit),
        }
    }

    // The commanded velocity.
    pub(crate) fn commanded(&self) -> Rate
        ensures { result.at ≡ commanded (memory_of self.now.before) }
    {
        Rate::clipped(self.before.target - self.before.last_target)
    }

    // The actual velocity.
    pub(crate) fn actual(&self) -> Rate
        ensures { result.at ≡ actual (memory_of self.now.before) self.now.x.at }
    {
        Rate::clipped(self.x - self.before.last_position)
    }
}
