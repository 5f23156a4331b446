//! A gain record without its ki, which comes back by every way out.
ghost use Rattle.std.specs.Prelude.{◌≡◌};
ghost use Rattle.motor.specs.Replies.{with_ki, without_ki};

use servo::settings::GainSettings;
use std::mem;

/// Holds a gain record whose ki is 0 for as long as the guard lives.
pub(crate) struct WithoutKi<'a> {
    pub(crate) gains: &'a mut GainSettings,
    pub(crate) ki: i64,
}

impl WithoutKi<'_> {
    // Saves ki and sets it to 0.
    pub(crate) fn new(gains: &mut GainSettings) -> WithoutKi<'_>
        ensures lends { result.gains.ghost_name ≡ gains.entry.ghost_name }
        ensures zero { result.gains.now ≡ without_ki gains.old }
        ensures saved { result.ki ≡ gains.old.ki }
    {
        let ki = mem::take(&mut gains.ki);
        WithoutKi { gains, ki }
    }
}

impl Drop for WithoutKi<'_> {
    fn drop(self)
        ensures { self.exit.0.now ≡ with_ki self.entry.ki self.entry.gains.now }
    {
        self.gains.ki = self.ki;
        let WithoutKi { gains: _, ki: _ } = self;
    }
}
