//! A refusal, with the line of the text at which it was found.
ghost use Rattle.std.specs.Prelude.{◌≡◌};
ghost use Rattle.std.specs.Result.{result_map_both};
ghost use Rattle.table_text.specs.HeadingTexts.{in_text};

use faults::fault::Fault;

/// What was said of a line; a refusal then names the text and the line.
pub(crate) fn refused_in<T>(said: Result<T, Fault>, line: usize) -> Result<T, Fault>
    ensures { result ≡ result_map_both (λ x. x) (in_text line) said }
{
    said.map_err(|fault| Fault::in_text(fault.refusal, line))
}
