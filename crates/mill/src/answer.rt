//! What a mill answers.
use crate::report::Report;
use faults::fault::Fault;

/// The answer of a call: whether it was done, what a question says, or the outputs of an accepted cycle.
// No `Result` around the three: a refused call would no longer say which kind of answer it was asked for.
#[derive(Drop)]
pub enum Answer {
    Done(Result<(), Fault>),
    Report(Result<Report, Fault>),
    Outputs(Result<Vec<i32>, Fault>),
}
