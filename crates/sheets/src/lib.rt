//! Sheets: each is empty or holds a complete compensation table.
#![tactic(auto)]

mod begun;
pub mod definition;
mod entries;
pub mod sheet;
pub mod table;
