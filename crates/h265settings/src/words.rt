// The settings that four words say.
ghost use Rattle.std.specs.Prelude.{◌≡◌};
ghost use Rattle.h265settings.specs.Words.{settings_in};

use crate::Settings;

impl From<[u32; 4]> for Settings {
    ghost from_gives = { λ words settings. settings ≡ settings_in words };

    fn from(words: [u32; 4]) -> Settings {
        let [ctu, smallest, width, height] = words;
        Settings {
            ctu,
            smallest,
            width,
            height,
        }
    }
}
