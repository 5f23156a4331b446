//! The headings of compensation tables.
#![tactic(auto)]

pub mod axes;
pub mod heading;
pub mod make;
pub mod numbers;
