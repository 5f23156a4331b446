//! A fraction, made and rounded.
ghost use Rattle.std.specs.Prelude.{◌≡◌, ◌^◌, pos, ◌+ℤ◌, ◌*ℤ◌, neg_ℤ, ◌≤ℤ◌, MatchOption};
ghost use Rattle.std.specs.Int.{int_div_euclid};
ghost use Rattle.rounding.specs.Round.{rounded, RoundingLaws, FractionFits};

use crate::fraction::Fraction;

/// The whole part of a quotient, rounded down.
fn floor(n: i64, d: i64) -> i64
    requires { pos 1 ≤ℤ d }
    ensures { result ≡ int_div_euclid n d }
{
    n.div_euclid(d)
}

impl Fraction {
    /// A numerator of at most 2^60 in size over a denominator from 1 to 2^44.
    pub fn new(numerator: i64, denominator: i64) -> Option<Fraction>
        ensures { MatchOption result
            (FractionFits numerator denominator → ⊥)
            (λ f. (f.numerator ≡ numerator) × (f.denominator ≡ denominator)) }
    {
        if !(-(1 << 60)..=1 << 60).contains(&numerator) || !(1..=1 << 44).contains(&denominator) {
            return None;
        }
        Some(Fraction {
            numerator,
            denominator,
        })
    }

    /// Twice the numerator with the denominator added: half a denominator more, doubled.
    fn raised(self) -> i64
        ensures { result ≡ pos 2 *ℤ self.numerator +ℤ self.denominator }
    {
        2 * self.numerator + self.denominator
    }

    fn doubled(self) -> i64
        ensures value { result ≡ pos 2 *ℤ self.denominator }
        ensures positive { pos 1 ≤ℤ result }
    {
        2 * self.denominator
    }

    /// The nearest whole number, halves upwards.
    pub fn nearest(self) -> i64
        ensures { result ≡ rounded self.numerator self.denominator }
    {
        floor(self.raised(), self.doubled())
    }
}
