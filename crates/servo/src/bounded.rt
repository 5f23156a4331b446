//! Numbers of at most a size.
ghost use Rattle.std.specs.Prelude.{◌≡◌, ◌^◌, ◌*◌, ◌<◌, ◌≤◌, unsigned_abs, ◌-ℤ◌};
ghost use Rattle.servo.specs.Clip.{clipped};

use crate::arith::clip;
use std::ops::Sub;

/// A number of sixteenths of at most the limit in size, which leaves room for the difference of two.
#[derive(Clone, Copy)]
pub struct Bounded<const LIMIT: u64> {
    pub at: i64,
    ghost near: { unsigned_abs at ≤ LIMIT },
    ghost room: { LIMIT < 2 ^ 62 },
}

impl<const LIMIT: u64> Bounded<LIMIT> {
    // The number z, or the outermost one on its side.
    pub(crate) fn clipped(z: i64) -> Self
        requires { LIMIT < 2 ^ 62 }
        ensures { result.at ≡ clipped LIMIT z }
    {
        Bounded {
            at: clip(z, LIMIT as i64),
        }
    }
}

/// How far one number lies from another.
impl<const LIMIT: u64> Sub for Bounded<LIMIT> {
    type Output = i64;

    ghost sub_gives = { λ a b d. (d ≡ a.at -ℤ b.at) × (unsigned_abs d ≤ 2 * LIMIT) };

    fn sub(self, rhs: Self) -> i64 {
        self.at - rhs.at
    }
}
