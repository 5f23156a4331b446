//! A gauge's kind, and what is kept of one axis.

/// What reads an axis: an encoder counts and rolls over, a scale tells where the axis is.
#[derive(Clone, Copy)]
pub enum Gauge {
    Encoder,
    Scale,
}

// The bound of the position stands in contracts and is no invariant, which was tried: the rule of a move would have to cut off what is refused.
/// One axis: its last reading, and its bare position in sixteenths of a count.
#[derive(Clone, Copy, Default)]
pub struct Axis {
    pub last: u32,
    pub position: i64,
}
