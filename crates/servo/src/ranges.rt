//! The ranges of the gains, in the order in which they are checked.
ghost use Rattle.std.specs.Prelude.{◌≡◌};
ghost use Rattle.servo.specs.Ranges.{fits, gains_fit, is_coefficient, is_gain, limits_fit, notch_fits, within};

use crate::settings::GainSettings;
use notch::notch::Coefficients;

// Does z lie from low to high? With `contains` written out at each gain instead, the answers were not proved.
#[tactic(auto, unfolding(crate::specs::Ranges::within))]
fn is_within(low: i64, high: i64, z: i64) -> bool
    ensures { result ≡ within low high z }
{
    (low..=high).contains(&z)
}

fn is_gain(k: i64) -> bool
    ensures { result ≡ is_gain k }
{
    is_within(0, 32_767, k)
}

fn is_coefficient(n: i64) -> bool
    ensures { result ≡ is_coefficient n }
{
    is_within(-2_097_152, 2_097_152, n)
}

// Each by itself, here and below: an array of the four, walked, takes longer than all the rest of a check.
fn gains_fit(s: &GainSettings) -> bool
    ensures { result ≡ gains_fit s.now }
{
    is_gain(s.kd) && is_gain(s.kv) && is_gain(s.ka) && is_gain(s.ki)
}

fn limits_fit(s: &GainSettings) -> bool
    ensures { result ≡ limits_fit s.now }
{
    is_within(1, 1_048_576, s.error_limit)
        && is_within(-70_368_744_177_664, 70_368_744_177_664, s.integrator_limit)
        && is_within(1, 1_099_511_627_776, s.following_limit)
        && is_within(1, 32_767, s.output_limit)
}

fn notch_fits(c: &Coefficients) -> bool
    ensures { result ≡ notch_fits c.now }
{
    is_coefficient(c.n1) && is_coefficient(c.n2) && is_coefficient(c.d1) && is_coefficient(c.d2)
}

// Is every gain in its range?
#[tactic(auto, unfolding(crate::specs::Ranges::fits))]
pub(crate) fn are_fit(s: &GainSettings) -> bool
    ensures { result ≡ fits s.now }
{
    is_within(0, 8_388_607, s.kp) && gains_fit(s) && limits_fit(s) && notch_fits(&s.notch)
}
