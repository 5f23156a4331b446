//! An axis of a machine that was looked at.
ghost use Rattle.std.specs.Prelude.{◌<◌, []};

use crate::machine::Machine;
use source::source::Source;

/// An axis that a machine has a motor for.
#[derive(Clone, Copy)]
pub(crate) struct Axis {
    pub(crate) number: usize,
    ghost few: { number < 8 },
}

/// A machine, with an axis that its source has.
#[derive(Drop)]
pub(crate) struct Present<'a, S: Source> {
    pub(crate) machine: &'a Machine<S>,
    pub(crate) axis: Axis,
    ghost there: { axis.number < (S.Source.means machine.now.source []).axes },
}
