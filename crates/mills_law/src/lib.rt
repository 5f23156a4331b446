//! The law over two mills, for every list of calls.
#![tactic(auto)]

pub mod laws;
