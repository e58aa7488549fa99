// What a version can say: a configuration that Init accepts, with records that say each object.
ghost use Rattle.std.specs.Prelude.{◌≡◌, ◌≤◌, true, length};
ghost use Rattle.rules.specs.Configuration.{configuration_valid};
ghost use Rattle.rules.specs.Writer as writer;
ghost use Rattle.rules.specs.Can.{can_format};
ghost use Rattle.rules.specs.Chip.{chip};
ghost use Rattle.can_config.specs.View.{view_setup};

use crate::owners::owners_valid;
use crate::sayable::records_say;
use can_chip::{CONTROLLERS, OBJECTS};
use can_config::header::known_version;
use can_config::setup::Setup;
use can_state::agreement::pools_agree;
use can_state::settings::settings_places_valid;
use core_validity::counts::counts_valid;

// Whether Init accepts the configuration. Where the counts are not valid no place is looked at. Each list is as long as its type says, which its
// own `len` tells.
fn configuration_valid(setup: &Setup) -> bool
    ensures valid { result ≡ configuration_valid chip can_format (view_setup setup.now) }
    ensures places { (length setup.now.owners ≡ chip.objects) × (length setup.now.settings ≡ chip.objects) }
{
    let _ = setup.owners.len();
    let _ = setup.settings.len();
    let counted = counts_valid(
        CONTROLLERS,
        OBJECTS,
        setup.controller_count,
        setup.object_count,
    );
    if !counted {
        return false;
    }
    let owned = owners_valid(setup.controller_count, setup.object_count, &setup.owners);
    let suited = settings_places_valid(setup.object_count, &setup.owners, &setup.settings);
    let pooled = pools_agree(&setup.owners, &setup.settings, setup.object_count);
    owned & suited & pooled
}

// Whether the version is known and says the configuration. No record is looked at before it is known how many there are.
pub fn can_say(version: u32, setup: &Setup) -> bool
    ensures said { result ≡ writer.can_say chip can_format version (view_setup setup.now) }
    ensures within { result ≡ true → (setup.now.controller_count ≤ chip.controllers) × (setup.now.object_count ≤ chip.objects) }
{
    let known = known_version(version);
    let valid = configuration_valid(setup);
    if !(known & valid) {
        return false;
    }
    records_say(version, setup)
}
