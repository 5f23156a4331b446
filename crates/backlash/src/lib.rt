//! Backlash of an axis, and the layer that takes it up.
#![tactic(auto)]

pub mod backlash;
pub mod backlash_layer;
pub mod laws;
mod rule;
pub mod slack;
