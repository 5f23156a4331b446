//! A layer that takes up the backlash of an axis.
ghost use Rattle.std.specs.Prelude.{◌≡◌, ℕ, List, [], Some, None, ◌==◌, MatchResult};
ghost use Rattle.rounding.specs.Bounds.{Within};
ghost use Rattle.source.specs.Meaning.{Meaning, Lawful, answer_of, past};
ghost use Rattle.layers.specs.Laid.{share};
ghost use Rattle.backlash.specs.TakeUps.{fresh};
ghost use Rattle.backlash.specs.BacklashLayers.{backlash_fit, standing, backlash_put, moved as moves_to};
ghost use Rattle.backlash.specs.BacklashLaws.{standing_lawful, standing_passes};

use crate::backlash::{Backlash, Direction, TakeUp};
use crate::rule::Rule;
use crate::slack::Slack;
use faults::fault::{Fault, Part};
use layers::below::{has_axis, has_room, position};
use layers::correction::Correction;
use layers::layer::Layer;
use source::source::Source;

/// A backlash on any source. Where it does not fit it is blank: it adds nothing and counts nothing.
pub type BacklashLayer<S> = Layer<S, Slack>;

// The rule of a backlash that fits on a source, or why it does not.
fn fitted<S: Source>(backlash: &Backlash, below: &S) -> Result<Rule, Fault>
    ensures { let fit = backlash_fit backlash.now (S.Source.means below.now []) in
        MatchResult result
        (λ rule. (rule.backlash ≡ backlash.now) × (fit ≡ None))
        (λ fault. fit ≡ Some fault) }
{
    let rule = Rule::try_from(*backlash)?;
    has_axis(below, Part::Source, backlash.axis)?;
    has_room(below, Part::Source)?;
    Ok(rule)
}

/// Whether a backlash fits on a source: 2 for a number out of its range, then 3 for an absent axis, then 12.
pub fn backlash_fit<S: Source>(backlash: &Backlash, below: &S) -> Result<(), Fault>
    ensures { result ≡ answer_of (backlash_fit backlash.now (S.Source.means below.now [])) }
{
    fitted(backlash, below)?;
    Ok(())
}

// The extreme from which a backlash newly put on a source takes up: where its axis is.
fn start<S: Source>(backlash: &Backlash, below: &S) -> i64
    ensures value { standing backlash.now (fresh result) (S.Source.means below.now)
        ≡ backlash_put backlash.now (S.Source.means below.now) }
    ensures held { Within 1099511627776 result }
{
    position(below, backlash.axis)
}

impl Slack {
    // Nothing is taken up on a source yet.
    fn new<S: Source>(backlash: Backlash, below: &S) -> Slack
        ensures { standing result.backlash result.stand (S.Source.means below.now)
            ≡ backlash_put backlash (S.Source.means below.now) }
    {
        let stand = TakeUp {
            direction: Direction::Up,
            extreme: start(&backlash, below),
            amount: 0,
        };
        Slack { backlash, stand }
    }

    // Where the take-up stands once the source below has accepted a row.
    fn moved<S: Source>(&self, below: &S) -> TakeUp
        ensures value { let seen = S.Source.means below.now [] in
            let b = self.now.backlash in
            result ≡ moves_to (backlash_fit b seen) b self.now.stand (seen.bare b.axis) }
        ensures near { Within 32767 result.amount }
        ensures held { Within 1099511627776 result.extreme }
    {
        fitted(&self.backlash, below).map_or(self.stand, |rule| {
            rule.stepped(self.stand, position(below, self.backlash.axis))
        })
    }

    // Moves the take-up once the source below has accepted a row.
    fn move_on<S: Source>(&mut self, below: &S)
        ensures { (m : Meaning) (row : List ℕ) → Lawful m → (m []).refusal row ≡ None
            → S.Source.means below.now ≡ past m row
            → standing self.new.backlash self.new.stand (past m row)
            ≡ past (standing self.old.backlash self.old.stand m) row }
    {
        self.stand = self.moved(below);
    }
}

impl Correction for Slack {
    ghost laid = { λ s m. standing s.backlash s.stand m };

    ghost passes = { λ s m. standing_passes s.backlash s.stand m };

    ghost keeps = { λ s m h. standing_lawful s.backlash s.stand m s.near h };

    fn fits<S: Source>(&self, below: &S) -> bool {
        backlash_fit(&self.backlash, below).is_ok()
    }

    fn amount<S: Source>(&self, below: &S, axis: usize) -> i64 {
        if self.fits(below) && axis == self.backlash.axis {
            self.stand.amount
        } else {
            0
        }
    }

    fn follow<S: Source>(&mut self, below: &S) {
        self.move_on(below);
    }
}

/// Puts a backlash on a source.
pub fn put_backlash<S: Source>(below: S, backlash: Backlash) -> BacklashLayer<S>
    ensures { let laid = S.Source.means result.below in
        standing result.correction.backlash result.correction.stand laid
        ≡ backlash_put backlash (S.Source.means below) }
{
    let slack = Slack::new(backlash, &below);
    Layer::new(below, slack)
}
