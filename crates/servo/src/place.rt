//! A position that an axis can have.
ghost use Rattle.std.specs.Prelude.{◌≡◌, ◌<◌, ◌≤◌, MatchResult, unsigned_abs};
ghost use Rattle.servo.specs.Clip.{clipped};
ghost use Rattle.servo.specs.Ranges.{out_of_range};

use crate::bounded::Bounded;
use faults::fault::{Fault, Part, Refusal};

/// A position in sixteenths: the position limit, and room for the largest offset of sixteen layers.
pub type Place = Bounded<1_099_512_152_048>;

impl Place {
    /// The position z, or the outermost one on its side.
    pub fn new(z: i64) -> Place
        ensures { result.at ≡ clipped 1099512152048 z }
    {
        Place::clipped(z)
    }

    // By name and no `TryFrom`, which would be no plainer: a place itself goes beyond the position limit.
    /// The position z, where it lies within the position limit.
    pub fn within_reach(z: i64) -> Result<Place, Fault>
        ensures { MatchResult result
            (λ p. (unsigned_abs z ≤ 1099511627776) × (p.at ≡ z))
            (λ f. (1099511627776 < unsigned_abs z) × (f ≡ out_of_range)) }
    {
        if z.unsigned_abs() <= 1_099_511_627_776 {
            Ok(Place { at: z })
        } else {
            Err(Fault::of(Part::Machine, Refusal::OutOfRange))
        }
    }
}
