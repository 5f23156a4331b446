//! An axis at another reading.
ghost use Rattle.std.specs.Prelude.{◌≡◌, IfOk};
ghost use Rattle.rounding.specs.Bounds.{Within};
ghost use Rattle.gauges.specs.Gauges.{outcome, width_refusal, moved, reading_refusal};

use crate::arithmetic::TURN;
use crate::gauge::{Axis, Gauge};
use faults::fault::Refusal;

// The farthest bare position from 0, in sixteenths.
const POSITION_LIMIT: u64 = 1_099_511_627_776;

impl Gauge {
    // Refuses a reading of more bits than the gauge has.
    pub(crate) fn check_width(self, reading: u32) -> Result<(), Refusal>
        ensures { result ≡ outcome (width_refusal self reading) tt }
    {
        match self {
            Gauge::Encoder if reading >= TURN => Err(Refusal::ReadingTooWide),
            _ => Ok(()),
        }
    }

    /// The axis after another reading, or why that is refused: by its width, its jump, or where it puts the axis.
    pub fn read(self, jump: u32, axis: Axis, reading: u32) -> Result<Axis, Refusal>
        ensures value { result
            ≡ outcome (reading_refusal self jump axis reading) (moved self axis reading) }
        ensures near { IfOk result (λ axis. Within 1099511627776 axis.position) }
    {
        self.check_width(reading)?;
        if self.travel(axis, reading).unsigned_abs() > u128::from(jump) {
            return Err(Refusal::JumpTooLarge);
        }
        match i64::try_from(self.place(axis, reading)) {
            Ok(position) if position.unsigned_abs() <= POSITION_LIMIT => Ok(Axis {
                last: reading,
                position,
            }),
            _ => Err(Refusal::PositionLimit),
        }
    }
}
