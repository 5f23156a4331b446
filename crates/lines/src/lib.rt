//! Lines of text: cut, and the numbers in them read.
#![tactic(auto)]

pub mod field;
pub mod line;
