//! Why an axis trips.
ghost use Rattle.std.specs.Prelude.{◌≡◌};
ghost use Rattle.servo.specs.Causes.{cause_number};

/// Why an axis trips: its following error passed its limit, or its integrator reached a limit that was set negative.
#[derive(Clone, Copy)]
pub enum Cause {
    FollowingError = 1,
    Integrator = 2,
}

impl Cause {
    // By name: a `From` proves too and is no plainer, as its call would not say which number, and no trait can write the cast of a type parameter.
    /// The number by which a cause is known outside.
    pub fn number(self) -> u8
        ensures { result ≡ cause_number self }
    {
        self as u8
    }
}
