//! The events, which alone change a motor's state.
ghost use Rattle.std.specs.Prelude.{◌≡◌};
ghost use Rattle.motor.specs.Motors.{closed_at, stopped, taken, view};

use crate::motor::Motor;
use crate::state::{Event, State};
use notch::notch::Notch;
use servo::memory::Memory;
use servo::place::Place;

impl Motor {
    // Another state, in which output and memory are 0.
    fn stop(&mut self, state: State)
        ensures { view self.new ≡ stopped state (view self.old) }
    {
        self.state = state;
        self.memory = Memory::at_rest();
        self.notch = Notch::at_rest();
        self.output = 0;
    }

    // Closed where it stands: target and last positions are x, and all other memory is 0.
    fn close_at(&mut self, x: Place)
        ensures { view self.new ≡ closed_at x.at (view self.old) }
    {
        self.stop(State::Closed);
        self.memory = Memory::starting(x);
    }

    /// Takes an event. Every change of the state is decided here.
    pub fn take(&mut self, event: Event)
        ensures { view self.new ≡ taken event (view self.old) }
    {
        match (self.state, event) {
            (_, Event::Kill) => self.stop(State::Killed),
            (State::Closed, Event::Trip(cause)) => self.stop(State::Tripped(cause)),
            (State::Killed | State::Tripped(_), Event::Closing(x)) => self.close_at(Place::new(x)),
            (State::Closed, Event::Closing(_)) => {}
            (State::Killed | State::Tripped(_), Event::Trip(_)) => {}
        }
    }
}
