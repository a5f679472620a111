// The settings that eight words say.
ghost use Rattle.std.specs.Prelude.{◌≡◌};
ghost use Rattle.settings.specs.Words.{settings_in};

use crate::Settings;

impl From<[u32; 8]> for Settings {
    ghost from_gives = { λ words settings. settings ≡ settings_in words };

    fn from(words: [u32; 8]) -> Settings {
        let [ctu, mincb, minqt, maxmtt, maxbt, maxtt, width, height] = words;
        Settings {
            ctu,
            mincb,
            minqt,
            maxmtt,
            maxbt,
            maxtt,
            width,
            height,
        }
    }
}
