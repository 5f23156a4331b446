//! A bank's record.
ghost use Rattle.std.specs.Prelude.{◌≤◌, length};
ghost use Rattle.banks.specs.Axes.{AllNear};

use arrayvec::ArrayVec;
use gauges::gauge::{Axis, Gauge};

/// The most axes of a bank.
pub(crate) const MOST: usize = 8;

/// Up to eight axes, all read by gauges of one kind, and the largest move that a row may make, in the gauge's unit.
/// A bank that is not set up has no axes.
#[derive(Drop)]
pub struct Bank {
    pub(crate) gauge: Gauge,
    pub(crate) jump: u32,
    pub(crate) axes: ArrayVec<Axis, MOST>,
    // The vector's capacity, once more: the law of sources sees its elements alone.
    ghost few: { length axes.items ≤ 8 },
    ghost near: { AllNear axes.items },
}
