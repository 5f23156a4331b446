//! The law over two mills.
ghost use Rattle.mills_law.specs.MillsLaw.{MillsObey};

/// Any two fresh mills on any two sources obey the law, for every list of calls.
pub fn mills_obey()
    ensures { MillsObey }
{}
