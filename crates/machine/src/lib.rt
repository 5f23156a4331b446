//! A machine over any source of positions: eight motors, and the calls that reach them.
#![tactic(auto)]

mod axis;
pub mod calls;
mod checks;
pub mod cycle;
pub mod machine;
mod motors;
mod place;
mod report;
