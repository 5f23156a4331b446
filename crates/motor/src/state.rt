//! What a motor can be, and what can happen to it.
use servo::cause::Cause;

/// A motor is killed, closed (its servo runs) or tripped.
#[derive(Clone, Copy)]
pub enum State {
    Killed,
    Closed,
    Tripped(Cause),
}

/// What changes a motor's state. A closing names the position that the motor is closed at.
#[derive(Clone, Copy)]
pub enum Event {
    Closing(i64),
    Kill,
    Trip(Cause),
}
