//! One step of the filter, in 64-bit floats.
ghost use Rattle.std.specs.Prelude.{◌≡◌, ◌^◌, ◌≤◌, ℤ, unsigned_abs, Float};
ghost use Rattle.std.specs.Float.{binary64};
ghost use Rattle.std.specs.Float.Ieee.{of_int, to_signed};
ghost use Rattle.notch.specs.Filter.{after, coefficient, limited, output, rest, weighed};

use crate::notch::{Coefficients, Notch};
use std::num::{nearest_i64_to_f64, saturating_f64_to_i32};

// A coefficient as a float: exact, since 2^-20 is a power of two.
fn scaled(n: i64) -> f64
    ensures { result ≡ coefficient n }
{
    nearest_i64_to_f64(n) * 0.00000095367431640625
}

// A raw output brought to the limit. A NaN passes neither test and becomes -limit.
// By hand: `clamp` leaves a NaN one, and `max` with `min` answers otherwise where the limit is negative.
fn limit_to(limit: i64, raw: f64) -> f64
    ensures { result ≡ limited (of_int binary64 limit) raw }
{
    let high = nearest_i64_to_f64(limit);
    if raw > high {
        high
    } else if raw >= -high {
        raw
    } else {
        -high
    }
}

// An output with its fraction dropped. One that was brought to a limit stays within it.
fn whole(y: f64) -> i32
    ensures value { result ≡ to_signed 31 y }
    ensures bound { (limit : ℤ) (raw : Float) →
        y ≡ limited (of_int binary64 limit) raw →
        unsigned_abs limit ≤ 2 ^ 53 →
        unsigned_abs result ≤ unsigned_abs limit }
{
    saturating_f64_to_i32(y)
}

impl Notch {
    /// The memory of a motor at rest: all 0.
    pub fn at_rest() -> Notch
        ensures { result ≡ rest }
    {
        Notch::default()
    }

    // The output before the limit. Each operation rounds once, in this order.
    fn weigh(&self, by: Coefficients, input: f64) -> f64
        ensures { result ≡ weighed self.now by input }
    {
        input + scaled(by.n1) * self.u1 + scaled(by.n2) * self.u2
            - scaled(by.d1) * self.y1
            - scaled(by.d2) * self.y2
    }

    /// One step: takes the input u, remembers it, and puts out a number within the limit.
    pub fn filter(&mut self, by: Coefficients, limit: i64, u: i64) -> i32
        ensures out { result ≡ output self.old by limit u }
        ensures bound { unsigned_abs limit ≤ 2 ^ 53 →
            unsigned_abs result ≤ unsigned_abs limit }
        ensures memory { self.new ≡ after self.old by limit u }
    {
        let input = nearest_i64_to_f64(u);
        let y = limit_to(limit, self.weigh(by, input));
        // A whole record: all four fields move on, and one by one their order would matter.
        *self = Notch {
            u1: input,
            u2: self.u1,
            y1: y,
            y2: self.y1,
        };
        whole(y)
    }
}
