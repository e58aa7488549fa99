// The first bytes of a configuration: a fixed string, the version, the two counts, and a zero byte.
ghost use Rattle.std.specs.Prelude.{◌≡◌, [], ◌∷◌, ◌++◌, ◌≤◌, ◌<◌, ◌^◌, length};
ghost use Rattle.rules.specs.Bytes.{big_endian, splice};
ghost use Rattle.rules.specs.Configuration.{header_size};
ghost use Rattle.rules.specs.Can.{header};

use can_config::header::{HEADER_SIZE, VERSION_AT};
use core_layout::bytes::put_bytes;

// What follows the fixed string: the version, the counts and the zero byte.
fn counted(
    version: u32,
    controller_count: usize,
    object_count: usize,
) -> [u8; HEADER_SIZE - VERSION_AT]
    requires { (controller_count < 2 ^ 8) × (object_count < 2 ^ 8) }
    ensures { result ≡ big_endian 2 version ++ (controller_count ∷ object_count ∷ 0 ∷ []) }
{
    let version = version.to_be_bytes();
    [
        version[2],
        version[3],
        controller_count as u8,
        object_count as u8,
        0,
    ]
}

// Writes the header at the buffer's beginning.
pub fn put_header(buffer: &mut [u8], version: u32, controller_count: usize, object_count: usize)
    requires { (header_size ≤ length buffer.old) × (controller_count < 2 ^ 8) × (object_count < 2 ^ 8) }
    ensures { buffer.new
        ≡ splice 0 (header ++ (big_endian 2 version ++ (controller_count ∷ object_count ∷ 0 ∷ []))) buffer.old }
{
    put_bytes(buffer, 0, b"CHB");
    put_bytes(
        buffer,
        VERSION_AT,
        &counted(version, controller_count, object_count),
    );
}
