//! The offsets that a table gives a one-axis encoder bank, reading by reading.
#![tactic(auto)]

pub mod follow;
pub mod input;
pub mod offsets;
pub mod readings;
pub mod standing;
pub mod write;
