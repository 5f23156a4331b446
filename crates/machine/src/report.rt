//! What is said of an axis.
ghost use Rattle.std.specs.Prelude.{◌≡◌};
ghost use Rattle.mill.specs.Calls.{report};
ghost use Rattle.machine.specs.Machines.{mill_of};

use crate::axis::Present;
use mill::report::Report;
use source::source::Source;

impl<S: Source> Present<'_, S> {
    // What is said of an axis.
    pub(crate) fn report(&self) -> Report
        ensures { let mill = mill_of S.Source.means self.now.machine.now in
            result ≡ report self.now.axis.number mill }
    {
        let motor = self.motor();
        let x = self.place();
        Report {
            bare: self.bare(),
            offset: self.offset(),
            position: x.at,
            following_error: motor.following_error(x),
            state: motor.state,
            output: motor.output,
        }
    }
}
