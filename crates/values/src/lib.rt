//! What a compensation table says at a position.
#![tactic(auto)]

mod interpolation;
pub mod laws;
mod place;
mod plane;
mod screw;
pub mod value;
