//! What a mill says of one axis.
use motor::state::State;

/// The bare position of an axis, its offset, the position that its servo works with, its following error, its state and its output.
#[derive(Clone, Copy)]
pub struct Report {
    pub bare: i64,
    pub offset: i64,
    pub position: i64,
    /// How far a closed motor is from its target; 0 for one that is not closed.
    // No Option: the rule answers 0 there, and the state beside it says which it is.
    pub following_error: i64,
    pub state: State,
    pub output: i32,
}
