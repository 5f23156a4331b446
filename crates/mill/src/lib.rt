//! What can be asked of a mill, and what it answers.
#![tactic(auto)]

pub mod answer;
pub mod call;
pub mod report;
