//! What a notch filter is set to, and what it remembers.

/// The coefficients, in units of 2^-20.
#[derive(Clone, Copy, Default)]
pub struct Coefficients {
    pub n1: i64,
    pub n2: i64,
    pub d1: i64,
    pub d2: i64,
}

/// The last two inputs and the last two outputs after the limit; `u1` and `y1` are the latest.
#[derive(Clone, Copy, Default)]
pub struct Notch {
    pub u1: f64,
    pub u2: f64,
    pub y1: f64,
    pub y2: f64,
}
