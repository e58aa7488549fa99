// The configuration reader.
ghost use Rattle.can_config.specs.Reading.{Configuration_read};

use crate::header::{CONTROLLERS_AT, OBJECTS_AT, version_of};
use crate::outline::outline_valid;
use crate::pools::pools_agree;
use crate::records::read_records;
use crate::setup::Reading;
use core_places::at::number_at;

// Reads a configuration from bytes of any length; none where Init does not accept them. No record is read before it is known that the bytes
// hold exactly the records.
#[tactic(auto, using(crate::proofs::Accepted::refusals))]
pub fn read(bytes: &[u8]) -> Option<Reading>
    ensures { Configuration_read bytes.now result }
{
    let controller_count = number_at(bytes, CONTROLLERS_AT) as usize;
    let object_count = number_at(bytes, OBJECTS_AT) as usize;
    if !outline_valid(bytes, controller_count, object_count) {
        return None;
    }
    let version = version_of(bytes);
    let setup = read_records(bytes, version, controller_count, object_count)?;
    if pools_agree(&setup) {
        Some(Reading { version, setup })
    } else {
        None
    }
}
