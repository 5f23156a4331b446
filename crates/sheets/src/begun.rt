//! A table that is being defined.
ghost use Rattle.std.specs.Prelude.{◌≡◌, true};
ghost use Rattle.filled.specs.Items.{items};
ghost use Rattle.headings.specs.Heads.{in_range};

use filled::filled::Filled;
use headings::heading::Heading;

/// A heading, and the entries so far, each in its range.
#[derive(Clone, Copy)]
pub(crate) struct Begun {
    pub(crate) heading: Heading,
    pub(crate) entries: Filled<i16, 288>,
    ghost narrow: { in_range (items entries) ≡ true },
}
