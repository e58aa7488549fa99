// What is configured of an object's frames.
ghost use Rattle.std.specs.Prelude.{◌≡◌, ◌≤◌, length};
ghost use Rattle.rules.specs.Can as can;
ghost use Rattle.rules.specs.Chip.{chip};
ghost use Rattle.can_state.specs.View.{view_settings};
ghost use Rattle.can_state.specs.Tests.{settings_suit, settings_rest, settings_places_valid};

use crate::settings_places::SettingsPlaces;
use can_chip::OBJECTS;
use core_places::owners::Owners;
use core_places::range::limited;

#[derive(Clone, Copy, PartialEq, Eq)]
pub struct Settings {
    pub payload: u8,
    pub padding: u8,
    pub code: u32,
    pub mask: u32,
}

// A place at rest.
pub fn unused_settings() -> Settings
    ensures { view_settings result ≡ can.unused_settings }
{
    Settings {
        payload: 0,
        padding: 0,
        code: 0,
        mask: 0,
    }
}

// Settings that Init accepts for an object of this kind.
pub fn settings_valid(receiving: bool, s: Settings) -> bool
    ensures { result ≡ can.settings_valid receiving (view_settings s) }
{
    can_frame::settings::settings_valid(receiving, s.payload as u32, s.padding, s.code, s.mask)
}

// Whether a place is at rest.
pub fn settings_unused(s: Settings) -> bool
    ensures { result ≡ can.settings_unused (view_settings s) }
{
    can_frame::settings::settings_unused(s.payload as u32, s.padding, s.code, s.mask)
}

// The settings of each object in use suit its kind.
#[tactic(auto, using(core_validity::proofs::Laws::all_below_more), unfolding(rules::specs::Repeat::all_below))]
fn settings_suit<const N: usize>(
    owners: &Owners<N>,
    settings: &SettingsPlaces<N>,
    count: usize,
) -> bool
    requires { count ≤ N }
    ensures { result ≡ settings_suit owners.now settings.now count }
{
    let mut ok = true;
    for h in 0..count {
        ok = ok & settings_valid(owners.read(h).receiving, settings.read(h));
    }
    ok
}

// The settings of each other place are at rest.
#[tactic(auto, using(core_validity::proofs::Laws::from_none, core_validity::proofs::Laws::from_more))]
fn settings_rest<const N: usize>(settings: &SettingsPlaces<N>, count: usize) -> bool
    requires { count ≤ N }
    ensures { result ≡ settings_rest settings.now count }
{
    let mut ok = true;
    for h in count..settings.len() {
        ok = ok & settings_unused(settings.read(h));
    }
    ok
}

// The settings of every place, where so many objects are in use; of the objects only the kinds matter.
pub fn settings_places_valid(
    object_count: usize,
    owners: &Owners<OBJECTS>,
    settings: &SettingsPlaces<OBJECTS>,
) -> bool
    ensures valid { result ≡ settings_places_valid object_count owners.now settings.now }
    ensures places { length settings.now ≡ chip.objects }
{
    let end = limited(object_count, settings.len());
    let suit = settings_suit(owners, settings, end);
    let rest = settings_rest(settings, end);
    suit & rest
}
