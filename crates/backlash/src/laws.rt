//! The rule of backlash at known runs.
ghost use Rattle.backlash.specs.Marked.{RunsStand};

/// The rule gives the known amounts along the marked runs.
pub fn marked_runs()
    ensures { RunsStand }
{}
