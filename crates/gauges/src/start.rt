//! What a gauge is set up with: a first reading, and a jump limit.
ghost use Rattle.std.specs.Prelude.{◌≡◌, pos, IfOk, unsigned_abs};
ghost use Rattle.rounding.specs.Bounds.{Within};
ghost use Rattle.gauges.specs.Gauges.{outcome, start, first_place, width_refusal, jump_refusal, most_jump};

use crate::gauge::{Axis, Gauge};
use faults::fault::Refusal;

impl Gauge {
    fn first_place(self, reading: u32) -> i64
        ensures value { result ≡ first_place self reading }
        ensures near { Within 1099511627776 result }
    {
        match self {
            Gauge::Encoder => 0,
            Gauge::Scale => i64::from(reading.cast_signed()),
        }
    }

    /// The axis at its first reading, or why that is refused.
    pub fn start(self, reading: u32) -> Result<Axis, Refusal>
        ensures value { result ≡ outcome (width_refusal self reading) (start self reading) }
        ensures near { IfOk result (λ axis. Within 1099511627776 axis.position) }
    {
        self.check_width(reading)?;
        Ok(Axis {
            last: reading,
            position: self.first_place(reading),
        })
    }

    // The largest jump limit, in the gauge's own unit.
    fn most_jump(self) -> u32
        ensures { result ≡ most_jump self }
    {
        match self {
            Gauge::Encoder => 8_388_607,
            Gauge::Scale => 2_147_483_647,
        }
    }

    /// The jump limit, where it is in the gauge's range.
    pub fn jump_limit(self, jump: i64) -> Result<u32, Refusal>
        ensures { result ≡ outcome (jump_refusal self jump) (unsigned_abs jump) }
    {
        match u32::try_from(jump) {
            Ok(limit) if (1..=self.most_jump()).contains(&limit) => Ok(limit),
            _ => Err(Refusal::OutOfRange),
        }
    }
}
