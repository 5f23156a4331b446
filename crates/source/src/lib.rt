//! What every source of positions answers.
#![tactic(auto)]

pub mod source;
