//! Table texts, written.
#![tactic(auto)]

mod heading;
mod page;
pub mod write;
