// Settings of objects that a call reads, wherever they stand: in a struct of arrays, or in slices of the caller.
ghost use Rattle.std.specs.Prelude.{◌≡◌, ◌<◌, ℕ, List};
ghost use Rattle.rules.specs.Configuration.{settings_at};
ghost use Rattle.rules.specs.Can as can;
ghost use Rattle.can_state.specs.View.{view_settings};

use crate::settings::Settings;
use crate::settings_places::SettingsPlaces;

pub trait SettingsList {
    // The list of them; and how many can be read with no test of their number.
    ghost places: { Self → List can.Settings };

    ghost readable: { Self → ℕ };

    // The settings of object h; past the last one, those of an unused object.
    fn settings(&self, h: usize) -> Settings
        ensures { view_settings result ≡ settings_at can.can_format (places self.now) h };

    // The same of an object that is known to have a place.
    fn read_settings(&self, h: usize) -> Settings
        requires { h < readable self.now }
        ensures { view_settings result ≡ settings_at can.can_format (places self.now) h }
    {
        self.settings(h)
    }
}

impl<const N: usize> SettingsList for SettingsPlaces<N> {
    ghost places = { λ l. l };

    ghost readable = { λ _. N };

    fn settings(&self, h: usize) -> Settings {
        self.at(h)
    }

    fn read_settings(&self, h: usize) -> Settings {
        self.read(h)
    }
}
