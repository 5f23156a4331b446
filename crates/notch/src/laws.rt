//! The laws of the filter.
ghost use Rattle.notch.specs.Laws.{NotchLaws};

/// No output passes the limit, whatever the memory holds, and no coefficient loses anything as a float.
pub fn notch_is_lawful()
    ensures { NotchLaws }
{}
