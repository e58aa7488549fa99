// What the records of a version can say of the objects. Their numbers fit the bytes of a record by their types; only version 1 has no byte for
// a pool.
ghost use Rattle.std.specs.Prelude.{◌≡◌};
ghost use Rattle.rules.specs.Repeat.{all_below};
ghost use Rattle.rules.specs.Writer.{record_sayable};
ghost use Rattle.rules.specs.Can.{can_format, can_say};
ghost use Rattle.rules.specs.Chip.{chip};
ghost use Rattle.core_places.specs.View.{view_owner};
ghost use Rattle.can_state.specs.View.{view_settings};
ghost use Rattle.can_config.specs.View.{view_setup};

use can_config::setup::Setup;
use can_state::settings::Settings;
use core_places::owner::Owner;

// Whether a record of the version says this of object h: in version 1, an object that sends has its own number as its pool.
fn record_says(version: u32, h: usize, owner: Owner, settings: Settings) -> bool
    ensures { result ≡ can_say version h (view_owner owner) (view_settings settings) }
{
    if version == 2 {
        return true;
    }
    owner.receiving | (owner.pool as usize == h)
}

// Whether a record of the version says each object in use.
#[tactic(auto, using(core_validity::proofs::Laws::all_below_more), unfolding(rules::specs::Repeat::all_below))]
pub fn records_say(version: u32, setup: &Setup) -> bool
    ensures { result
        ≡ all_below setup.now.object_count (record_sayable chip can_format version (view_setup setup.now)) }
{
    let mut ok = true;
    for h in 0..setup.object_count {
        ok = ok & record_says(version, h, setup.owners.at(h), setup.settings.at(h));
    }
    ok
}
