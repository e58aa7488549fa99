// The configuration writer.
ghost use Rattle.can_config.specs.View.{view_setup};
ghost use Rattle.can_writer.specs.Reply.{ConfigWritten};

use crate::header::put_header;
use crate::judge::can_say;
use crate::records::put_records;
use crate::reply::ConfigReply;
use can_config::header::HEADER_SIZE;
use can_config::record::RECORD_SIZE;
use can_config::setup::Setup;
use core_answers::rejection::Rejection;

// Writes a configuration as bytes of the version at the buffer's beginning, and answers how many they are. Where the version cannot say it, or
// the buffer is too short, the buffer stays as it was.
pub fn write_configuration(version: u32, setup: Setup, buffer: &mut [u8]) -> ConfigReply
    ensures { ConfigWritten version (view_setup setup) buffer.old buffer.new result }
{
    if !can_say(version, &setup) {
        return Err(Rejection::InitFailed);
    }
    let size = HEADER_SIZE + RECORD_SIZE * setup.object_count;
    if buffer.len() < size {
        return Err(Rejection::SheetTooShort);
    }
    put_header(buffer, version, setup.controller_count, setup.object_count);
    put_records(buffer, version, &setup);
    Ok(size)
}
