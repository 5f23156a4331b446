//! A fraction of whole numbers.
ghost use Rattle.std.specs.Prelude.{◌^◌, pos, neg_ℤ, ◌≤ℤ◌};

/// A numerator over a denominator that is at least 1; both leave room to be rounded.
#[derive(Clone, Copy)]
pub struct Fraction {
    pub(crate) numerator: i64,
    pub(crate) denominator: i64,
    ghost low: { neg_ℤ (pos (2 ^ 60)) ≤ℤ numerator },
    ghost high: { numerator ≤ℤ pos (2 ^ 60) },
    ghost positive: { pos 1 ≤ℤ denominator },
    ghost small: { denominator ≤ℤ pos (2 ^ 44) },
}
