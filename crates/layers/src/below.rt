//! What a layer asks of the source below it.
ghost use Rattle.std.specs.Prelude.{◌≡◌, [], ◌+ℤ◌, IfOk};
ghost use Rattle.rounding.specs.Bounds.{Within};
ghost use Rattle.source.specs.Meaning.{answer_of, offset_answer};
ghost use Rattle.layers.specs.Below.{axis_fit, depth_fit, position_seen};

use faults::fault::{Fault, Part, Refusal};
use source::source::Source;

/// Whether a source has an axis that a layer names.
pub fn has_axis<S: Source>(below: &S, part: Part, axis: usize) -> Result<(), Fault>
    ensures { result ≡ answer_of (axis_fit part axis (S.Source.means below.now [])) }
{
    if axis >= below.axes() {
        return Err(Fault::of(part, Refusal::NoSuchAxis).on_axis(axis));
    }
    Ok(())
}

/// Whether one layer more may stand on a source.
pub fn has_room<S: Source>(below: &S, part: Part) -> Result<(), Fault>
    ensures { result ≡ answer_of (depth_fit part (S.Source.means below.now [])) }
{
    if below.depth() >= 16 {
        return Err(Fault::of(part, Refusal::StackFull));
    }
    Ok(())
}

// The bounds of a position and of an offset stand in clauses and are no types: a source answers plain numbers, and each use is a sum of them.
/// Where an axis is, and 0 for one that is not there.
pub fn position<S: Source>(below: &S, axis: usize) -> i64
    ensures value { result ≡ position_seen (S.Source.means below.now []) axis }
    ensures near { Within 1099511627776 result }
{
    below.bare(axis).unwrap_or(0)
}

/// The offset below, which leaves room for what a layer adds.
pub fn offset_below<S: Source>(below: &S, axis: usize) -> Result<i64, Fault>
    ensures value { result ≡ offset_answer (S.Source.means below.now []) axis }
    ensures near { IfOk result (λ z. Within 524272 z) }
{
    below.offset(axis)
}

/// An offset with a layer's amount added: the sum, for every offset and amount that there is.
pub fn sum(offset: i64, amount: i64) -> i64
    ensures { Within 524272 offset → Within 32767 amount → result ≡ offset +ℤ amount }
{
    offset.saturating_add(amount)
}
