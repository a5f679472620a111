// Refusals 34, 35, 7 and 8: which settings are taken.
ghost use Rattle.std.specs.Prelude.{◌≡◌};
ghost use Rattle.refusals.specs.Said.{number_or_0};
ghost use Rattle.h265settings.specs.Checks.{settings_refusal};

use crate::Settings;
use refusals::Reason;

// Checks the settings: the first of these that they break.
#[tactic(auto, using(crate::proofs::Passed::power_of_side), unfolding(crate::specs::Checks::settings_refusal))]
pub(crate) fn check(s: Settings) -> Result<(), Reason>
    ensures { number_or_0 result ≡ settings_refusal s }
{
    if !((s.ctu == 16) | (s.ctu == 32) | (s.ctu == 64)) {
        return Err(Reason::QuadCtuSide);
    }
    if !sides::side_from(8, s.ctu, s.smallest) {
        return Err(Reason::QuadSmallestBlock);
    }
    if settings::bad_length(s.smallest, s.width) {
        return Err(Reason::Width);
    }
    if settings::bad_length(s.smallest, s.height) {
        return Err(Reason::Height);
    }
    Ok(())
}
