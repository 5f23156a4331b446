//! What a layer adds to the source below it.
ghost use Rattle.std.specs.Prelude.{◌≡◌, ◌+◌, [], None, List, ℕ, ◌+ℤ◌, if◌then◌else◌};
ghost use Rattle.rounding.specs.Bounds.{Within};
ghost use Rattle.source.specs.Meaning.{Meaning, Lawful, past};
ghost use Rattle.layers.specs.Laid.{PassesThrough};

use source::source::Source;

/// A correction of one axis by the bare positions of a source. Where it does not fit on the source it is blank.
pub trait Correction {
    // What a source means with the correction on it.
    ghost laid: { Self → Meaning → Meaning };

    /// Whether the correction fits on a source; one that does counts as a layer.
    fn fits<S: Source>(&self, below: &S) -> bool
        ensures { let m = S.Source.means below.now in
            (laid self.now m []).depth ≡ (m []).depth + (if result then 1 else 0) };

    /// What it adds at an axis.
    fn amount<S: Source>(&self, below: &S, axis: usize) -> i64
        ensures value { let m = S.Source.means below.now in
            (laid self.now m []).offset axis ≡ (m []).offset axis +ℤ result }
        ensures near { Within 32767 result };

    /// Goes on once the source below has accepted a row.
    fn follow<S: Source>(&mut self, below: &S)
        ensures { (m : Meaning) (row : List ℕ) → Lawful m → (m []).refusal row ≡ None
            → S.Source.means below.now ≡ past m row
            → laid self.new (past m row) ≡ past (laid self.old m) row };

    // Axes, bare positions and refusals pass through, and a lawful source stays one.
    ghost passes: { (c : Self) (m : Meaning) → PassesThrough m (laid c m) };

    ghost keeps: { (c : Self) (m : Meaning) → Lawful m → Lawful (laid c m) };
}
