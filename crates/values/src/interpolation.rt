//! Linear interpolation in whole numbers, before and after it is rounded.
ghost use Rattle.std.specs.Prelude.{◌≡◌, ◌+◌, ◌*◌, ◌^◌, ◌≤◌, pos, ◌+ℤ◌, ◌*ℤ◌, unsigned_abs};
ghost use Rattle.rounding.specs.Round.{rounded};

use crate::place::Place;
use rounding::fraction::Fraction;

/// A value by its weight. `LIMIT` bounds the value, so that the size of the product is linear in the weight.
fn weigh<const LIMIT: u64>(value: i64, weight: u32) -> i64
    requires value { unsigned_abs value ≤ LIMIT }
    requires weight { LIMIT * weight ≤ 2 ^ 59 }
    ensures value { result ≡ value *ℤ pos weight }
    ensures size { unsigned_abs result ≤ LIMIT * weight }
{
    value * i64::from(weight)
}

/// A sum that there is room for.
fn sum(first: i64, second: i64) -> i64
    requires { (unsigned_abs first ≤ 2 ^ 59) × (unsigned_abs second ≤ 2 ^ 59) }
    ensures value { result ≡ first +ℤ second }
    ensures size { unsigned_abs result ≤ unsigned_abs first + unsigned_abs second }
{
    first + second
}

/// What lies between two values at a place, times the span: the first weighs what is left, the second what is gone.
pub(crate) fn between<const LIMIT: u64>(place: Place, from: i64, to: i64) -> i64
    requires values { (unsigned_abs from ≤ LIMIT) × (unsigned_abs to ≤ LIMIT) }
    requires weights { LIMIT * (place.left + place.gone) ≤ 2 ^ 59 }
    ensures value { result ≡ from *ℤ pos place.left +ℤ to *ℤ pos place.gone }
    ensures size { unsigned_abs result ≤ LIMIT * (place.left + place.gone) }
{
    let Place {
        index: _,
        gone,
        left,
    } = place;
    sum(weigh::<LIMIT>(from, left), weigh::<LIMIT>(to, gone))
}

/// The nearest whole number of a fraction that there is room for.
pub(crate) fn nearest(numerator: i64, denominator: u64) -> i64
    requires numerator { unsigned_abs numerator ≤ 2 ^ 60 }
    requires denominator { (1 ≤ denominator) × (denominator ≤ 2 ^ 44) }
    ensures { result ≡ rounded numerator (pos denominator) }
{
    Fraction::new(numerator, denominator as i64)
        .unwrap()
        .nearest()
}
