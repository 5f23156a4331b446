//! The refusals: what they are, their numbers, and how a program writes one.
#![tactic(auto)]

pub mod build;
pub mod fault;
pub mod write;
