//! Layers that correct a source of positions.
#![tactic(auto)]

pub mod below;
pub mod correction;
pub mod layer;
pub mod sheet_layer;
