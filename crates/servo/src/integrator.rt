//! The integrator, and the memory that a cycle leaves.
ghost use Rattle.std.specs.Prelude.{◌≡◌, ◌^◌, ◌≤◌, unsigned_abs};
ghost use Rattle.servo.specs.Memories.{memory_of};
ghost use Rattle.servo.specs.Step.{accumulated, integral, is_full, is_held, next};

use crate::arith::{clip, exceeds, is_at, times};
use crate::cycle::Cycle;
use crate::gains::Gains;
use crate::memory::Memory;

impl Cycle<'_> {
    // The integrator with one more error, before its limit.
    fn accumulate(&self) -> i64
        ensures { result ≡
            accumulated self.now.gains.now.settings (memory_of self.now.before) self.now.x.at }
    {
        self.before.integrator + times(self.gains.settings.ki, self.error().at)
    }

    // Was the output at its limit, and would the integrator grow?
    fn is_held(&self, sum: i64) -> bool
        ensures { result ≡ is_held (memory_of self.now.before) self.now.saturated sum }
    {
        self.saturated && exceeds(sum, self.before.integrator)
    }

    // The integrator after the cycle.
    fn integrate(&self) -> i64
        ensures value { result ≡
            integral self.now.gains.now.settings (memory_of self.now.before)
            self.now.saturated self.now.x.at }
        ensures size { unsigned_abs result ≤ 2 ^ 46 }
    {
        let sum = self.accumulate();
        if self.is_held(sum) {
            self.before.integrator
        } else {
            clip(sum, self.gains.settings.integrator_limit)
        }
    }

    // The memory after the cycle: target, position and commanded velocity become the last ones.
    pub(crate) fn next(&self) -> Memory
        ensures { memory_of result ≡
            next self.now.gains.now.settings (memory_of self.now.before)
            self.now.saturated self.now.x.at }
    {
        Memory {
            target: self.before.target,
            last_target: self.before.target,
            last_position: self.x,
            last_velocity: self.commanded(),
            integrator: self.integrate(),
        }
    }
}

impl Memory {
    // Has the integrator reached a limit that trips?
    pub(crate) fn is_full(&self, gains: &Gains) -> bool
        ensures { result ≡ is_full gains.now.settings (memory_of self.now) }
    {
        gains.settings.integrator_limit < 0
            && is_at(self.integrator, gains.settings.integrator_limit)
    }
}
