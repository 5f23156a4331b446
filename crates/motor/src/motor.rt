//! One motor's record.
ghost use Rattle.std.specs.Prelude.{◌≡◌, ◌≤◌, false, pos, unsigned_abs};
ghost use Rattle.motor.specs.States.{is_closed};

use crate::state::State;
use notch::notch::Notch;
use servo::gains::Gains;
use servo::memory::Memory;

/// A motor: its state, its correction switch, its gains, what it remembers, and what it puts out.
/// No output passes its limit, and a motor that is not closed puts out 0.
// The correction is a switch that goes by no other field, so it is a bool.
#[derive(Clone, Copy)]
pub struct Motor {
    pub state: State,
    pub correction: bool,
    pub gains: Gains,
    pub memory: Memory,
    pub notch: Notch,
    pub output: i32,
    ghost limited: { unsigned_abs output ≤ unsigned_abs gains.settings.output_limit },
    ghost still: { (is_closed state ≡ false → output ≡ pos 0) },
}
