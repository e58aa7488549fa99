// What is judged before any record is read: the header, the size and the two counts.
ghost use Rattle.std.specs.Prelude.{◌≡◌, ◌&&◌, ◌+◌, ◌*◌, ◌<◌, ◌^◌, length, eqb};
ghost use Rattle.rules.specs.Core.{counts_valid};
ghost use Rattle.rules.specs.Configuration.{header_size, header_valid};
ghost use Rattle.rules.specs.Can.{can_format};
ghost use Rattle.rules.specs.Chip as rules;

use crate::header::{HEADER_SIZE, header_matches};
use crate::record::RECORD_SIZE;
use can_chip::{CONTROLLERS, OBJECTS};
use core_validity::counts::counts_valid;

// The header matches, there are bytes for exactly so many records, and there is a place for each controller and each object. One byte
// says how many objects there are, so the size of all records can be computed.
pub fn outline_valid(bytes: &[u8], controller_count: usize, object_count: usize) -> bool
    requires { object_count < 2 ^ 8 }
    ensures { result
        ≡ (header_valid rules.chip can_format bytes.now
        && eqb (length bytes.now) (header_size + can_format.record_size * object_count)
        && counts_valid rules.chip controller_count object_count) }
{
    let header = header_matches(bytes);
    let size = bytes.len() == HEADER_SIZE + RECORD_SIZE * object_count;
    let counts = counts_valid(CONTROLLERS, OBJECTS, controller_count, object_count);
    header & size & counts
}
