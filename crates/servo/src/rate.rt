//! What is counted of an error or a velocity.
use crate::bounded::Bounded;

/// An error or a velocity in sixteenths, of at most 2^20 in size.
pub type Rate = Bounded<1_048_576>;
