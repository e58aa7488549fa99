// The records of all objects.
ghost use Rattle.std.specs.Prelude.{◌+◌, ◌*◌, ◌≤◌, length};
ghost use Rattle.rules.specs.Configuration.{header_size};
ghost use Rattle.rules.specs.Can.{can_format};
ghost use Rattle.rules.specs.Chip as rules;
ghost use Rattle.can_config.specs.Reading.{Records_read};

use crate::record::{read_record, record_valid};
use crate::setup::Setup;
use can_state::settings_places::SettingsPlaces;
use core_places::owners::Owners;

// Reads and judges one record after the other, up to one that Init does not accept; the places after the last one are at rest.
pub fn read_records(
    bytes: &[u8],
    version: u32,
    controller_count: usize,
    object_count: usize,
) -> Option<Setup>
    requires { (object_count ≤ (rules.chip).objects) × (header_size + can_format.record_size * object_count ≤ length bytes.now) }
    ensures { Records_read bytes.now version controller_count object_count result }
{
    let mut owners = Owners::unused();
    let mut settings = SettingsPlaces::unused();
    for h in 0..object_count {
        let record = read_record(bytes, version, h);
        if !record_valid(controller_count, record) {
            return None;
        }
        owners.set(h, record.owner);
        settings.set(h, record.settings);
    }
    Some(Setup {
        controller_count,
        object_count,
        owners,
        settings,
    })
}
