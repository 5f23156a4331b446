//! What holds of every report of the program `offsets`.
#![tactic(auto)]

ghost use Rattle.offset_law.specs.OffsetLaws.{OffsetLaws};

/// Each reported offset is the table's value at the reported position, and each line has its report.
pub fn offsets_are_lawful()
    ensures { OffsetLaws }
{}
