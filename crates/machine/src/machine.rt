//! A machine over any source of positions.
ghost use Rattle.std.specs.Prelude.{◌≡◌};
ghost use Rattle.mill.specs.Mills.{fresh_mill};
ghost use Rattle.machine.specs.Machines.{mill_of};

use crate::motors::Motors;
use motor::motor::Motor;
use source::source::Source;

/// A source of positions, and a motor for each of its axes.
// Contracts see it through `mill_of`. A model would be no plainer: it hides the source and the records, of which a cycle's clauses speak alone.
#[derive(Drop)]
pub struct Machine<S: Source> {
    pub(crate) source: S,
    pub(crate) inner: Motors,
}

impl<S: Source> Machine<S> {
    /// A machine on a source: all motors are killed, with the correction switched off.
    pub fn new(source: S) -> Self
        ensures { mill_of S.Source.means result ≡ fresh_mill (S.Source.means source) }
    {
        Machine {
            source,
            inner: Motors {
                records: [Motor::fresh(); 8],
            },
        }
    }
}
