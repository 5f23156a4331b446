//! Arrays that are filled from their front.
#![tactic(auto)]

pub mod fill;
pub mod filled;
