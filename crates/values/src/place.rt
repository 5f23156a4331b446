//! Where a position lies in a span.
ghost use Rattle.std.specs.Prelude.{◌≡◌, ◌-◌, ◌<◌, ◌≤◌};
ghost use Rattle.values.specs.Values.{phase, place, part};

/// Past so many whole parts of a span, so far into the next one, and so far from its end.
#[derive(Clone, Copy)]
pub(crate) struct Place {
    pub(crate) index: usize,
    pub(crate) gone: u32,
    pub(crate) left: u32,
}

/// How far a position is into its span.
fn phase(position: i64, span: u32) -> u32
    requires { 1 ≤ span }
    ensures value { result ≡ phase span position }
    ensures below { result < span }
{
    position.rem_euclid(i64::from(span)) as u32
}

/// The place of a position in a span that is cut into parts.
pub(crate) fn locate(position: i64, span: u32, parts: u32) -> Place
    requires span { 1 ≤ span }
    requires parts { 1 ≤ parts }
    ensures index { result.index ≡ place parts span position }
    ensures inside { result.index < parts }
    ensures gone { result.gone ≡ part parts span position }
    ensures left { result.left ≡ span - part parts span position }
    ensures less { result.gone < span }
{
    let whole = u64::from(phase(position, span)) * u64::from(parts);
    let gone = (whole % u64::from(span)) as u32;
    Place {
        index: (whole / u64::from(span)) as usize,
        gone,
        left: span - gone,
    }
}
