// The units of the picture, by the settings of H.266 that have the same trees.
ghost use Rattle.std.specs.Prelude.{◌≡◌};
ghost use Rattle.unit.specs.Luma.{LumaUnits};
ghost use Rattle.h265settings.specs.Units.{as_luma, units_of};

use crate::{Settings, checks};
use refusals::Reason;
use unit::Coding;

impl Coding for Settings {
    ghost units = { units_of };

    // 34, 35, 7 and 8.
    fn check(self) -> Result<(), Reason> {
        checks::check(self)
    }

    // A quad tree is the luma tree without cuts, M = 0, down to the smallest side.
    #[tactic(auto, using(crate::proofs::Sound::quad_settings))]
    fn as_luma(self) -> settings::Settings
        ensures units { LumaUnits (units_of self) result }
        ensures numbers { result ≡ as_luma self }
    {
        settings::Settings {
            ctu: self.ctu,
            mincb: self.smallest,
            minqt: self.smallest,
            maxmtt: 0,
            maxbt: self.smallest,
            maxtt: self.smallest,
            width: self.width,
            height: self.height,
        }
    }
}
