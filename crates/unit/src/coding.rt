// The settings of a picture's coding trees, H.266's or others: what the calls on its units ask of them.
ghost use Rattle.std.specs.Prelude.{◌≡◌, ◌≤◌};
ghost use Rattle.refusals.specs.Said.{number_or_0, numbered};
ghost use Rattle.settings.specs.Units.{counted_by};
ghost use Rattle.unit.specs.Units.{Units};
ghost use Rattle.unit.specs.Luma.{units_of, LumaUnits};

use refusals::Reason;
use settings::Settings;

pub trait Coding: Copy {
    // The units of the picture.
    ghost units: { Self → Units };

    // Whether the settings are taken, or the first rule that they break.
    fn check(self) -> Result<(), Reason>
        ensures { number_or_0 result ≡ (units self).refusal };

    // The eight numbers of H.266 whose luma trees are the trees of these units.
    fn as_luma(self) -> Settings
        ensures { LumaUnits (units self) result };
}

impl Coding for Settings {
    ghost units = { units_of };

    fn check(self) -> Result<(), Reason> {
        settings::check(self)
    }

    #[tactic(auto, using(crate::proofs::Luma::luma_settings))]
    fn as_luma(self) -> Settings {
        self
    }
}

// How many units the picture has, or the settings' refusal.
#[tactic(auto, unfolding(settings::specs::Units::counted_by))]
pub fn unit_count<S: Coding>(s: S) -> Result<usize, Reason>
    ensures counted { numbered result ≡ counted_by (S.units s).refusal (S.units s).count }
    ensures few { (S.units s).refusal ≡ 0 → (S.units s).count ≤ 1048576 }
{
    s.check()?;
    let luma = s.as_luma();
    Ok(settings::count_in(luma.ctu, luma.width, luma.height))
}
