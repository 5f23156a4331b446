//! A bank of encoders or of scales: the source below every stack.
#![tactic(auto)]

pub mod bank;
pub mod bank_source;
pub mod laws;
pub mod set_up;
mod walk;
