//! The rule of backlash, over one position after another.
ghost use Rattle.std.specs.Prelude.{◌≡◌, ◌-ℤ◌, MatchResult, Some, None};
ghost use Rattle.rounding.specs.Bounds.{Within};
ghost use Rattle.backlash.specs.TakeUps.{reversed as turned, farther as lies_farther};
ghost use Rattle.backlash.specs.TakeUps.{is_back as lies_back, toward as goes_toward, goal_of};
ghost use Rattle.backlash.specs.TakeUps.{going as goes, stepped as steps_to, InRange};
ghost use Rattle.backlash.specs.BacklashLayers.{range_fit};

use crate::backlash::{Backlash, Direction, TakeUp};
use faults::fault::{Fault, Part, Refusal};

/// A backlash whose numbers are in range, so that no step of its rule overflows.
#[derive(Clone, Copy)]
pub(crate) struct Rule {
    backlash: Backlash,
    ghost in_range: { InRange backlash },
}

// How far a position lies above another, in a type that holds every such number.
fn above(low: i64, high: i64) -> i128
    ensures { result ≡ high -ℤ low }
{
    i128::from(high) - i128::from(low)
}

impl Direction {
    fn reversed(self) -> Direction
        ensures { result ≡ turned self }
    {
        match self {
            Direction::Up => Direction::Down,
            Direction::Down => Direction::Up,
        }
    }

    // Which of two positions is farther along.
    fn farther(self, x: i64, y: i64) -> i64
        ensures { result ≡ lies_farther self x y }
    {
        match self {
            Direction::Up => x.max(y),
            Direction::Down => x.min(y),
        }
    }

    // Whether a position lies farther back from the extreme than the hysteresis.
    fn is_back(self, hysteresis: i64, extreme: i64, position: i64) -> bool
        ensures { result ≡ lies_back self hysteresis extreme position }
    {
        match self {
            Direction::Up => above(position, extreme) > i128::from(hysteresis),
            Direction::Down => above(extreme, position) > i128::from(hysteresis),
        }
    }
}

/// The rule of a backlash, or that a number of it is out of range.
impl TryFrom<Backlash> for Rule {
    type Error = Fault;

    ghost try_from_gives = { λ b r. MatchResult r
        (λ rule. (rule.backlash ≡ b) × (range_fit b ≡ None))
        (λ fault. range_fit b ≡ Some fault) };

    #[tactic(auto, unfolding(crate::specs::TakeUps::ranges))]
    fn try_from(backlash: Backlash) -> Result<Rule, Fault> {
        match (backlash.size, backlash.rate, backlash.hysteresis) {
            (-32_767..=32_767, 1..=32_767, 0..=32_767) => Ok(Rule { backlash }),
            _ => Err(Fault::of(Part::Source, Refusal::OutOfRange)),
        }
    }
}

impl Rule {
    // An amount that moves by at most the rate towards `goal`.
    fn toward(self, goal: i64, amount: i64) -> i64
        ensures { result ≡ goes_toward self.backlash.rate goal amount }
    {
        if amount < goal {
            amount.saturating_add(self.backlash.rate).min(goal)
        } else {
            amount.saturating_sub(self.backlash.rate).max(goal)
        }
    }

    // Where the amount goes: to nothing upward, to the size downward.
    fn goal(self, direction: Direction) -> i64
        ensures { result ≡ goal_of direction self.backlash }
    {
        match direction {
            Direction::Up => 0,
            Direction::Down => self.backlash.size,
        }
    }

    // The take-up after a row that leaves the axis going this way.
    fn going(self, direction: Direction, extreme: i64, amount: i64) -> TakeUp
        ensures { result ≡ goes direction self.backlash extreme amount }
    {
        TakeUp {
            direction,
            extreme,
            amount: self.toward(self.goal(direction), amount),
        }
    }

    /// Where the take-up stands once the axis is at `position`.
    pub(crate) fn stepped(self, stand: TakeUp, position: i64) -> TakeUp
        ensures value { result ≡ steps_to self.backlash stand position }
        ensures near { Within 32767 stand.amount → Within 32767 result.amount }
        ensures held { Within 1099511627776 stand.extreme → Within 1099511627776 position
            → Within 1099511627776 result.extreme }
    {
        let extreme = stand.direction.farther(stand.extreme, position);
        if stand
            .direction
            .is_back(self.backlash.hysteresis, extreme, position)
        {
            self.going(stand.direction.reversed(), position, stand.amount)
        } else {
            self.going(stand.direction, extreme, stand.amount)
        }
    }
}
