//! The notch filter of one motor.
#![tactic(auto)]

pub mod filter;
pub mod laws;
pub mod notch;
