//! A complete compensation table.
ghost use Rattle.std.specs.Prelude.{◌≡◌, length};
ghost use Rattle.filled.specs.Items.{items};
ghost use Rattle.headings.specs.Heads.{head_of, capacity};

use crate::begun::Begun;

/// What was begun, with as many entries as its heading asks for.
#[derive(Clone, Copy)]
pub struct Table {
    pub(crate) begun: Begun,
    ghost whole: { length (items begun.entries) ≡ capacity (head_of begun.heading) },
}
