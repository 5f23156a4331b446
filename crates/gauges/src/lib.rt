//! The two kinds of gauge, and what one reading does to its axis.
#![tactic(auto)]

pub mod arithmetic;
pub mod gauge;
pub mod reading;
pub mod start;
