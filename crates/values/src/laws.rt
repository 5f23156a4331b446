//! The laws of a table's value.
ghost use Rattle.values.specs.Marked.{PointsStand};
ghost use Rattle.values.specs.ValueLaws.{ValueLaws};

/// A value is off the exact one by at most one half, is the entry on a point, repeats with each span, and is never larger than the largest entry.
pub fn values_are_lawful()
    ensures { ValueLaws }
{}

/// The definitions give the known values at the marked points.
pub fn marked_points()
    ensures { PointsStand }
{}
