//! The laws of rounding.
ghost use Rattle.rounding.specs.Round.{RoundingLaws};

/// Rounding is to the nearest, halves upwards; it keeps whole numbers, order and bounds, and goes along with whole shifts.
pub fn rounding_is_lawful()
    ensures { RoundingLaws }
{}
