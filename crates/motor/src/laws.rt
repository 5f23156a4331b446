//! The laws of replies.
ghost use Rattle.motor.specs.Replies.{RepliesMeasured};

/// Gains that are in range are so without ki too: the reply to every error within the position limit is an output.
pub fn replies_are_lawful()
    ensures { RepliesMeasured }
{}
