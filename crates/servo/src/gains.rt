//! Gains that are in range.
ghost use Rattle.std.specs.Prelude.{◌≡◌, true, false, MatchResult};
ghost use Rattle.servo.specs.Ranges.{Sizes, at_limit, fits, fresh_settings, out_of_range};

use crate::arith::is_at;
use crate::ranges::are_fit;
use crate::settings::GainSettings;
use faults::fault::{Fault, Part, Refusal};

/// Gains of which each is in its range. The sizes follow from that, in the form in which the arithmetic asks for them.
#[derive(Clone, Copy)]
pub struct Gains {
    pub settings: GainSettings,
    ghost ranged: { fits settings ≡ true },
    ghost sizes: { Sizes settings },
}

// Gains that were found in range.
fn accepted(settings: GainSettings) -> Gains
    requires { fits settings ≡ true }
    ensures { result.settings ≡ settings }
{
    Gains { settings }
}

/// The gains, where each is in its range.
impl TryFrom<GainSettings> for Gains {
    type Error = Fault;

    ghost try_from_gives = { λ settings r. MatchResult r
        (λ g. (fits settings ≡ true) × (g.settings ≡ settings))
        (λ f. (fits settings ≡ false) × (f ≡ out_of_range)) };

    fn try_from(settings: GainSettings) -> Result<Gains, Fault> {
        if are_fit(&settings) {
            Ok(accepted(settings))
        } else {
            Err(Fault::of(Part::Machine, Refusal::OutOfRange))
        }
    }
}

impl Gains {
    /// Is the output at its limit?
    pub fn is_at_limit(&self, output: i32) -> bool
        ensures { result ≡ at_limit self.now.settings output }
    {
        is_at(i64::from(output), self.settings.output_limit)
    }

    /// The gains of a motor that was not given any.
    #[tactic(auto, unfolding(crate::specs::Ranges::fits, crate::specs::Ranges::within))]
    pub fn fresh() -> Gains
        ensures { result.settings ≡ fresh_settings }
    {
        accepted(GainSettings {
            error_limit: 1,
            following_limit: 1,
            output_limit: 1,
            ..GainSettings::default()
        })
    }
}
