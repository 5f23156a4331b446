//! One cycle of a motor.
ghost use Rattle.std.specs.Prelude.{◌≡◌, ◌≤◌, unsigned_abs};
ghost use Rattle.motor.specs.Motors.{acted, stepped, view};
ghost use Rattle.motor.specs.declared.state.State.{State};

use crate::motor::Motor;
use crate::state::Event;
use servo::place::Place;

impl Motor {
    // The cycle of a closed motor.
    fn act(&mut self, x: Place)
        requires { self.old.state ≡ State.Closed }
        ensures bound { unsigned_abs self.new.output ≤
            unsigned_abs self.old.gains.settings.output_limit }
        ensures next { view self.new ≡ acted x.at (view self.old) }
    {
        let gains = &self.gains;
        let saturated = gains.is_at_limit(self.output);
        match self.memory.step(gains, saturated, x) {
            Ok(u) => {
                let settings = &gains.settings;
                self.output = self.notch.filter(settings.notch, settings.output_limit, u);
            }
            Err(cause) => self.take(Event::Trip(cause)),
        }
    }

    /// One cycle at x, and what the motor then puts out: 0 unless it is closed, and never more than its limit.
    #[tactic(auto, using(crate::proofs::Cycles::either))]
    pub fn step(&mut self, x: Place) -> i32
        ensures out { result ≡ self.new.output }
        ensures bound { unsigned_abs result ≤ unsigned_abs self.old.gains.settings.output_limit }
        ensures next { view self.new ≡ stepped x.at (view self.old) }
    {
        if self.is_closed() {
            self.act(x);
        }
        self.output
    }
}
