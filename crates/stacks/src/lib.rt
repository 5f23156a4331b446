//! Stacks of layers: what they mean, and the laws of all of them.
#![tactic(auto)]

pub mod laws;
pub mod pair;
