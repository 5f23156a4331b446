//! One motor: its record, its state, its events and its cycle; and the reply to an error.
#![tactic(auto)]

pub mod calls;
pub mod cases;
pub mod cycle;
pub mod events;
pub mod fresh;
mod guard;
pub mod laws;
pub mod motor;
pub mod reply;
pub mod state;
