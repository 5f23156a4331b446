//! The record of a backlash that corrects its axis.
ghost use Rattle.rounding.specs.Bounds.{Within};

use crate::backlash::{Backlash, TakeUp};

/// A backlash, and where its take-up stands.
#[derive(Clone, Copy)]
pub struct Slack {
    pub(crate) backlash: Backlash,
    pub(crate) stand: TakeUp,
    // Not ghost fields of `TakeUp`: the rule is defined of every backlash, and out of range no bound holds.
    ghost near: { Within 32767 stand.amount },
    ghost held: { Within 1099511627776 stand.extreme },
}
