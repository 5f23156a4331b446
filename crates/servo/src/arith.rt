//! Sums, products and quotients that fit, whatever the gains are.
ghost use Rattle.std.specs.Prelude.{◌≡◌, ◌*◌, ◌^◌, ◌<◌, ◌≤◌, ◌*ℤ◌, ◌==◌, nat_lt, unsigned_abs};
ghost use Rattle.servo.specs.Clip.{clipped, floor};

// Is z larger in size than the limit?
pub(crate) fn exceeds(z: i64, limit: i64) -> bool
    ensures { result ≡ nat_lt (unsigned_abs limit) (unsigned_abs z) }
{
    z.unsigned_abs() > limit.unsigned_abs()
}

// Is z of the limit's size?
pub(crate) fn is_at(z: i64, limit: i64) -> bool
    ensures { result ≡ (unsigned_abs z == unsigned_abs limit) }
{
    z.unsigned_abs() == limit.unsigned_abs()
}

// z, brought to at most the limit's size.
#[tactic(auto, unfolding(crate::specs::Clip::clipped))]
pub(crate) fn clip(z: i64, limit: i64) -> i64
    requires { unsigned_abs limit < 2 ^ 63 }
    ensures value { result ≡ clipped (unsigned_abs limit) z }
    ensures size { unsigned_abs result ≤ unsigned_abs limit }
{
    let by = limit.abs();
    z.clamp(-by, by)
}

// A gain times a signed number.
pub(crate) fn times(k: i64, z: i64) -> i64
    requires gain { unsigned_abs k ≤ 2 ^ 15 }
    requires size { unsigned_abs z ≤ 2 ^ 21 }
    ensures value { result ≡ k *ℤ z }
    ensures size { unsigned_abs result ≤ 2 ^ 36 }
{
    k * z
}

// A shift copies the sign, and so rounds down.
pub(crate) fn shift_16(z: i64) -> i64
    requires { unsigned_abs z ≤ 2 ^ 46 }
    ensures value { result ≡ floor z 65536 }
    ensures size { unsigned_abs result ≤ 2 ^ 30 }
{
    z >> 16
}

// The gain kp, in units of 2^-23, times the sum m.
pub(crate) fn amplify(kp: i64, m: i64) -> i64
    requires gain { unsigned_abs kp ≤ 2 ^ 23 }
    requires size { unsigned_abs m < 2 ^ 38 }
    ensures { result ≡ floor (kp *ℤ m) 8388608 }
{
    (kp * m) >> 23
}
