//! A sheet with backlash above it, on any source.
ghost use Rattle.std.specs.Prelude.{◌≡◌, [], ◌∷◌};
ghost use Rattle.backlash.specs.BacklashLayers.{standing};
ghost use Rattle.layers.specs.SheetLayers.{sheet_put};
ghost use Rattle.stacks.specs.Joined.{StackLaws};
ghost use Rattle.stacks.specs.Stack.{stacked, sheet as of_sheet, backlash as of_backlash};

use crate::laws::stacks_are_lawful;
use backlash::backlash::Backlash;
use backlash::backlash_layer::{BacklashLayer, put_backlash};
use layers::sheet_layer::SheetLayer;
use sheets::sheet::Sheet;
use source::source::Source;

// Puts both on, the sheet first.
fn put_both<S: Source>(bottom: S, sheet: &Sheet, backlash: Backlash) -> BacklashLayer<SheetLayer<S>>
    ensures { let laid = sheet_put result.below.correction (S.Source.means result.below.below) in
        standing result.correction.backlash result.correction.stand laid
        ≡ stacked (of_backlash backlash ∷ of_sheet sheet.now ∷ []) (S.Source.means bottom) }
{
    put_backlash(SheetLayer::put(bottom, sheet), backlash)
}

/// Puts a sheet on a source, and a backlash on that: a stack of the two, of which the laws of stacks hold.
pub fn sheet_and_backlash<S: Source>(
    bottom: S,
    sheet: &Sheet,
    backlash: Backlash,
) -> BacklashLayer<SheetLayer<S>>
    ensures means { let laid = sheet_put result.below.correction (S.Source.means result.below.below) in
        standing result.correction.backlash result.correction.stand laid
        ≡ stacked (of_backlash backlash ∷ of_sheet sheet.now ∷ []) (S.Source.means bottom) }
    ensures laws { StackLaws }
{
    stacks_are_lawful();
    put_both(bottom, sheet, backlash)
}
