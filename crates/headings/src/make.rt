//! Headings made from plain numbers, of which each is looked at from left to right.
ghost use Rattle.std.specs.Prelude.{◌≡◌, ◌≤◌, true, false, MatchResult, unsigned_abs};
ghost use Rattle.faults.specs.declared.fault.Refusal.TheVariants.{OutOfRange};
ghost use Rattle.headings.specs.Heads.{sheet_fault, within, MotorKnown, ScrewMade, PlaneMade};

use crate::heading::{MotorNumber, Plane, Screw};
use crate::numbers::{PlaneNumbers, ScrewNumbers};
use faults::fault::{Fault, Part, Refusal};

/// A number from 1 to the highest.
fn ranged(value: i64, high: u32) -> Result<u32, Fault>
    ensures { MatchResult result
        (λ n. (within high value ≡ true) × (n ≡ unsigned_abs value) × (1 ≤ n) × (n ≤ high))
        (λ f. (within high value ≡ false) × (f ≡ sheet_fault OutOfRange)) }
{
    match u32::try_from(value) {
        Ok(number) if (1..=high).contains(&number) => Ok(number),
        _ => Err(Fault::of(Part::Sheet, Refusal::OutOfRange)),
    }
}

impl TryFrom<i64> for MotorNumber {
    type Error = Fault;

    ghost try_from_gives = { MotorKnown };

    fn try_from(value: i64) -> Result<MotorNumber, Fault> {
        let number = ranged(value, 8)? as u8;
        Ok(MotorNumber { number })
    }
}

impl TryFrom<ScrewNumbers> for Screw {
    type Error = Fault;

    ghost try_from_gives = { ScrewMade };

    fn try_from(numbers: ScrewNumbers) -> Result<Screw, Fault> {
        let entries = ranged(numbers.entries, 256)? as u16;
        let source = MotorNumber::try_from(numbers.source)?;
        let target = MotorNumber::try_from(numbers.target)?;
        let span = ranged(numbers.span, 16_777_216)?;
        Ok(Screw {
            entries,
            source,
            target,
            span,
        })
    }
}

/// A plane's heading of numbers that are in their ranges.
// Beside `try_from`, which is public and so has no answers of its own.
fn checked_plane(numbers: PlaneNumbers) -> Result<Plane, Fault>
    ensures { PlaneMade numbers result }
{
    let rows = ranged(numbers.rows, 16)? as u8;
    let columns = ranged(numbers.columns, 16)? as u8;
    let row_motor = MotorNumber::try_from(numbers.row_motor)?;
    let column_motor = MotorNumber::try_from(numbers.column_motor)?;
    let target = MotorNumber::try_from(numbers.target)?;
    let row_span = ranged(numbers.row_span, 262_144)?;
    let column_span = ranged(numbers.column_span, 262_144)?;
    Ok(Plane {
        rows,
        columns,
        row_motor,
        column_motor,
        target,
        row_span,
        column_span,
    })
}

impl TryFrom<PlaneNumbers> for Plane {
    type Error = Fault;

    ghost try_from_gives = { PlaneMade };

    fn try_from(numbers: PlaneNumbers) -> Result<Plane, Fault> {
        checked_plane(numbers)
    }
}
