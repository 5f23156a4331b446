//! One axis's gains, and the whole-number part of its servo step.
#![tactic(auto)]

mod arith;
pub mod bounded;
pub mod cause;
mod cycle;
pub mod gains;
mod integrator;
pub mod memory;
pub mod place;
mod ranges;
pub mod rate;
pub mod settings;
pub mod start;
pub mod step;
