//! Table texts, read.
#![tactic(auto)]

pub mod heading;
mod in_line;
pub mod table;
