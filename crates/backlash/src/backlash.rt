//! The numbers of a backlash, and where its take-up stands.

/// Backlash on one axis: its size, how much the take-up moves after a row, and how far back a reversal begins.
#[derive(Clone, Copy)]
pub struct Backlash {
    pub axis: usize,
    pub size: i64,
    pub rate: i64,
    pub hysteresis: i64,
}

/// Which way an axis goes.
#[derive(Clone, Copy)]
pub enum Direction {
    Up,
    Down,
}

/// The direction of the axis, its extreme in that direction, and the amount that is taken up.
#[derive(Clone, Copy)]
pub struct TakeUp {
    pub direction: Direction,
    pub extreme: i64,
    pub amount: i64,
}
