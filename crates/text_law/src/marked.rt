//! Texts that are read, and texts that are refused.
ghost use Rattle.text_law.specs.MarkedTexts.{Marked};

/// Texts of tables with their tables, and other texts, each with its refusal and line.
pub fn marked_texts()
    ensures { Marked }
{}
