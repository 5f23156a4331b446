//! A call for two mills at once.
ghost use Rattle.std.specs.Prelude.{◌≡◌, ◌+ℤ◌};
ghost use Rattle.mill.specs.Asked.{command_of};
ghost use Rattle.mill.specs.Runs.{target as target_command};
ghost use Rattle.mills_law.specs.Pairs.{east_of, shift_of};
ghost use Rattle.pair.specs.PairCalls.{pair_of, side_of, ActsAlike};

use mill::call::Call;
use servo::settings::GainSettings;

/// What East is asked; West gets the same, with the shift added to a target and with its own row of readings.
/// A cycle has East's row, West's row, and the length of the row that each is lent for its outputs.
// Not `Call` over what a cycle brings: an alias of it could have no method here, and each kind of call would keep its arm.
#[derive(Drop)]
pub enum PairCall {
    SetGains(usize, GainSettings),
    Close(usize),
    Kill(usize),
    Target(usize, i64),
    Switch(usize, bool),
    Question(usize),
    Cycle(Vec<u32>, Vec<u32>, usize),
}

/// One of the two mills: East, or West, which is that much further along at each axis.
#[derive(Clone, Copy)]
pub enum Side<'a> {
    East,
    West(&'a [i64]),
}

// How far West is along at an axis: 0 where no shift is given.
fn shift_at(shift: &[i64], axis: usize) -> i64
    ensures { result ≡ shift_of shift.now axis }
{
    shift.get(axis).copied().unwrap_or(0)
}

// West's target. A sum that is too large for a number is taken for the largest, which lies beyond the position limit as well.
fn west_target(axis: usize, target: i64, shift: &[i64]) -> i64
    ensures { ActsAlike (target_command axis result)
        (target_command axis (target +ℤ shift_of shift.now axis)) }
{
    target.saturating_add(shift_at(shift, axis))
}

impl PairCall {
    /// A side's call: East's own, and for West its call, or one that every mill answers and takes as it does that.
    pub fn on(&self, side: Side<'_>) -> Call<'_>
        ensures east { side.entry ≡ Side.East → command_of result ≡ east_of (pair_of self.now) }
        ensures alike { ActsAlike (command_of result) (side_of side.entry (pair_of self.now)) }
    {
        match self {
            PairCall::SetGains(axis, settings) => Call::SetGains(*axis, *settings),
            PairCall::Close(axis) => Call::Close(*axis),
            PairCall::Kill(axis) => Call::Kill(*axis),
            PairCall::Target(axis, target) => match side {
                Side::East => Call::Target(*axis, *target),
                Side::West(shift) => Call::Target(*axis, west_target(*axis, *target, shift)),
            },
            PairCall::Switch(axis, on) => Call::Switch(*axis, *on),
            PairCall::Question(axis) => Call::Question(*axis),
            PairCall::Cycle(east, west, places) => match side {
                Side::East => Call::Cycle(east.as_slice(), *places),
                Side::West(_) => Call::Cycle(west.as_slice(), *places),
            },
        }
    }
}
