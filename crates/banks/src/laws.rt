//! The laws of banks, and readings whose outcome is known beforehand.
ghost use Rattle.std.specs.Prelude.{◌≡◌, map};
ghost use Rattle.banks.specs.BankLaws.{BankLaws};
ghost use Rattle.banks.specs.Cases.{cases, played, expected};

/// Encoders take the shorter way round; an accepted row moves every axis as its reading says, a refused one none; and
/// no axis ever stands beyond the position limit.
pub fn banks_are_lawful()
    ensures { BankLaws }
{}

/// Each marked row of readings gets its marked fault and leaves its marked positions.
pub fn marked_readings()
    ensures { map played cases ≡ map expected cases }
{}
