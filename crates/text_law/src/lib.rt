//! A text and its table determine each other.
#![tactic(auto)]

pub mod check;
pub mod copy;
pub mod marked;
