// The pools of the objects in use: each is valid, and its members agree in payload and padding.
ghost use Rattle.std.specs.Prelude.{◌≡◌, ◌<◌, min};
ghost use Rattle.rules.specs.Can as can;
ghost use Rattle.rules.specs.Chip.{chip};
ghost use Rattle.rules.specs.Configuration.{settings_at};
ghost use Rattle.can_state.specs.Tests.{pools_agreed};

use crate::settings_places::SettingsPlaces;
use can_chip::OBJECTS;
use core_places::owners::Owners;
use core_places::range::limited;
use core_validity::pools::{lowest_member, own_pools, pool_valid};

// Object h has the payload and the padding of another.
fn agrees<const N: usize>(settings: &SettingsPlaces<N>, h: usize, other: usize) -> bool
    requires { (h < N) × (other < N) }
    ensures { result
        ≡ can.settings_agree (settings_at can.can_format settings.now h)
        (settings_at can.can_format settings.now other) }
{
    let s = settings.read(h);
    let t = settings.read(other);
    (s.payload == t.payload) & (s.padding == t.padding)
}

// Every call makes this test. So it is one pass in rising order, in which the lowest member of a pool is the first that is met; and where no
// pool is shared, as in every configuration of version 1, there is nothing to compare.
pub fn pools_agree(
    owners: &Owners<OBJECTS>,
    settings: &SettingsPlaces<OBJECTS>,
    count: usize,
) -> bool
    ensures { result ≡ pools_agreed (min count chip.objects) owners.now settings.now }
{
    let end = limited(count, OBJECTS);
    if own_pools(owners, end) {
        return true;
    }
    let mut table = [OBJECTS; OBJECTS];
    let mut ok = true;
    for h in 0..end {
        let lowest = lowest_member(owners, &mut table, h);
        let valid = pool_valid(owners, h, lowest);
        ok = ok & (valid & agrees(settings, h, lowest));
    }
    ok
}
