//! Numbers in a text, read.
#![tactic(auto)]

pub mod number;
