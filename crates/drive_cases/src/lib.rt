//! Ten thousand random cycles of a motor, held to an independent drive.
#![tactic(auto)]

#[cfg(test)]
mod draw;
#[cfg(test)]
mod steps;
#[cfg(test)]
mod table;
