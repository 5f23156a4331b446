//! One servo step of a closed axis, up to the notch.
ghost use Rattle.std.specs.Prelude.{◌≡◌, ◌^◌, ◌<◌, unsigned_abs};
ghost use Rattle.servo.specs.Memories.{memory_of};
ghost use Rattle.servo.specs.Step.{answer, drive, mixed, remembered};

use crate::arith::{amplify, shift_16, times};
use crate::cause::Cause;
use crate::cycle::Cycle;
use crate::gains::Gains;
use crate::memory::Memory;
use crate::place::Place;

impl Cycle<'_> {
    // M, the sum that the gain kp then scales.
    fn mix(&self, after: &Memory) -> i64
        ensures value { result ≡
            mixed self.now.gains.now.settings (memory_of self.now.before)
            (memory_of after.now) self.now.x.at }
        ensures size { unsigned_abs result < 2 ^ 38 }
    {
        let g = &self.gains.settings;
        let velocity = after.last_velocity;
        128 * self.error().at
            + times(g.kv, velocity.at)
            + times(g.ka, velocity - self.before.last_velocity)
            - times(g.kd, self.actual().at)
            + shift_16(after.integrator)
    }

    // The notch's input.
    fn drive(&self, after: &Memory) -> i64
        ensures { result ≡
            drive self.now.gains.now.settings (memory_of self.now.before)
            (memory_of after.now) self.now.x.at }
    {
        amplify(self.gains.settings.kp, self.mix(after))
    }
}

impl Memory {
    /// One cycle at x, which is told whether the last output was at its limit: the notch's input, or why the axis trips.
    pub fn step(&mut self, gains: &Gains, saturated: bool, x: Place) -> Result<i64, Cause>
        ensures value { result ≡ answer gains.now.settings (memory_of self.old) saturated x.at }
        ensures memory { memory_of self.new ≡
            remembered gains.now.settings (memory_of self.old) saturated x.at }
    {
        let cycle = Cycle {
            gains,
            before: *self,
            saturated,
            x,
        };
        if cycle.is_lost() {
            return Err(Cause::FollowingError);
        }
        let next = cycle.next();
        if next.is_full(gains) {
            return Err(Cause::Integrator);
        }
        *self = next;
        Ok(cycle.drive(&next))
    }
}
