// The records of all objects, one after the other.
ghost use Rattle.std.specs.Prelude.{◌≡◌, ◌+◌, ◌*◌, ◌≤◌, length};
ghost use Rattle.rules.specs.Repeat.{concat_below};
ghost use Rattle.rules.specs.Bytes.{splice};
ghost use Rattle.rules.specs.Configuration.{header_size};
ghost use Rattle.rules.specs.Can.{can_format};
ghost use Rattle.rules.specs.Chip.{chip};
ghost use Rattle.can_writer.specs.Records.{record_at};

use crate::record::record_bytes;
use can_config::header::HEADER_SIZE;
use can_config::record::RECORD_SIZE;
use can_config::setup::Setup;
use core_layout::bytes::put_bytes;

// Writes the records of all objects in use behind the header.
pub fn put_records(buffer: &mut [u8], version: u32, setup: &Setup)
    requires { (setup.now.object_count ≤ chip.objects)
        × (header_size + can_format.record_size * setup.now.object_count ≤ length buffer.old) }
    ensures { buffer.new
        ≡ splice header_size
        (concat_below setup.now.object_count (record_at version setup.now.owners setup.now.settings))
        buffer.old }
{
    for h in 0..setup.object_count {
        let record = record_bytes(version, setup.owners.read(h), setup.settings.read(h));
        put_bytes(buffer, HEADER_SIZE + RECORD_SIZE * h, &record);
    }
}
