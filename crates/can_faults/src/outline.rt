// The rules of the header and of the total.
ghost use Rattle.std.specs.Prelude.{◌≡◌};
ghost use Rattle.can_faults.specs.Fault.{first_broken, outline_rules};

use crate::fault::OutlineRule;
use can_chip::{CONTROLLERS, OBJECTS};
use can_config::header::{
    CONTROLLERS_AT, HEADER_SIZE, OBJECTS_AT, ZERO_AT, known_version, mark_matches, version_of,
};
use can_config::record::RECORD_SIZE;
use core_places::at::number_at;

// The first of these rules that is broken.
#[tactic(auto, unfolding(crate::specs::Fault::first_broken, crate::specs::Fault::outline_rules))]
pub fn outline_rule(bytes: &[u8]) -> Result<(), OutlineRule>
    ensures { result ≡ first_broken (outline_rules bytes.now) }
{
    if !mark_matches(bytes) {
        return Err(OutlineRule::Mark);
    }
    if !known_version(version_of(bytes)) {
        return Err(OutlineRule::Version);
    }
    let controller_count = number_at(bytes, CONTROLLERS_AT) as usize;
    if !((1 <= controller_count) & (controller_count <= CONTROLLERS)) {
        return Err(OutlineRule::Controllers);
    }
    let object_count = number_at(bytes, OBJECTS_AT) as usize;
    if OBJECTS < object_count {
        return Err(OutlineRule::Objects);
    }
    if number_at(bytes, ZERO_AT) != 0 {
        return Err(OutlineRule::ZeroByte);
    }
    if bytes.len() != HEADER_SIZE + RECORD_SIZE * object_count {
        return Err(OutlineRule::Size);
    }
    Ok(())
}
