//! Servo cycles whose outcome is known beforehand.
ghost use Rattle.std.specs.Prelude.{◌≡◌, map};
ghost use Rattle.motor.specs.Cases.{cases, expected, played};

/// Each marked motor puts out what is marked and is then in the marked state.
pub fn marked_cycles()
    ensures { map played cases ≡ map expected cases }
{}
