// What the head of an object says: identifier (4 bytes), length (from byte 4 on), handle (bytes 6 and 7). Every object has the same size.
ghost use Rattle.std.specs.Prelude.{◌≡◌, ◌+◌, ◌*◌, ◌≤◌, length};
ghost use Rattle.rules.specs.Head.{identifier_in, length_in, handle_in};
ghost use Rattle.rules.specs.Polls.{object_in};
ghost use Rattle.core_layout.specs.Head.{head_size, length_bytes};

use crate::bytes::{byte, number_2, number_4};

// Where the length stands in an object's head.
pub const LENGTH_AT: usize = 4;

// Where the handle stands in it.
pub const HANDLE_AT: usize = 6;

// The bytes of the head.
pub const HEAD_SIZE: usize = 8;

// The handle that an object's bytes name.
pub fn handle_at(ram: &[u8], size: usize, object: usize) -> u32
    requires { (head_size ≤ size) × (size * object + size ≤ length ram.now) }
    ensures { result ≡ handle_in (object_in size ram.now object) }
{
    number_2(ram, size * object + HANDLE_AT)
}

// The identifier that an object's bytes name.
pub fn identifier_at(ram: &[u8], size: usize, object: usize) -> u32
    requires { (head_size ≤ size) × (size * object + size ≤ length ram.now) }
    ensures { result ≡ identifier_in (object_in size ram.now object) }
{
    number_4(ram, size * object)
}

// The length that an object's bytes name, as it stands: one byte, or two.
pub fn length_at(ram: &[u8], size: usize, two_bytes: bool, object: usize) -> u32
    requires { (head_size ≤ size) × (size * object + size ≤ length ram.now) }
    ensures { result ≡ length_in (length_bytes two_bytes) (object_in size ram.now object) }
{
    if two_bytes {
        number_2(ram, size * object + LENGTH_AT)
    } else {
        byte(ram, size * object + LENGTH_AT)
    }
}
