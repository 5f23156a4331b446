//! Rounding over whole numbers.
#![tactic(auto)]

pub mod fraction;
pub mod laws;
pub mod round;
