//! The laws of stacks of layers.
ghost use Rattle.stacks.specs.Joined.{StackLaws};

/// Over every source, every list of layers and every list of rows: a stack passes axes, bare positions and refusals through; its offset is a sum, in any order;
/// its correction is its tables' exact sum but for half a unit a table; and a shift by whole spans changes no offset.
pub fn stacks_are_lawful()
    ensures { StackLaws }
{}
