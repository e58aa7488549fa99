// Data lengths, and the lengths that go on the wire.
ghost use Rattle.std.specs.Prelude.{◌≡◌};
ghost use Rattle.rules.specs.Can as can;

use crate::identifier::is_fd;
use crate::table::wire_entry;

// The longest data of a classic frame. An object's payload is this or the next.
pub const LONGEST_CLASSIC: u32 = 8;

// The longest data of an FD frame.
pub const LONGEST_FD: u32 = 64;

// How data of some length goes out.
#[derive(Clone, Copy)]
pub struct WireLength {
    pub length: u8,
    pub dlc: u8,
}

// The next wire length and its DLC code. No frame is longer than 64: there the length is 255, and the code is past the last.
pub fn on_wire(length: usize) -> WireLength
    ensures { (result.length ≡ can.wire_length length) × (result.dlc ≡ can.dlc_code length) }
{
    let entry = wire_entry(length);
    WireLength {
        length: (entry / 256) as u8,
        dlc: (entry % 256) as u8,
    }
}

// Reason 3 does not apply: a classic frame has at most 8 bytes, an FD frame at most 64 and an object with room for it.
pub fn length_fits(payload: u32, identifier: u32, length: usize) -> bool
    ensures { result ≡ can.length_fits payload identifier length }
{
    if is_fd(identifier) {
        (length <= LONGEST_FD as usize) & !(payload == LONGEST_CLASSIC)
    } else {
        length <= LONGEST_CLASSIC as usize
    }
}

// Reason 40 does not apply: frames of this format have this length on the wire.
pub fn is_wire_length(identifier: u32, length: usize) -> bool
    ensures { result ≡ can.is_wire_length identifier length }
{
    if is_fd(identifier) {
        (length <= LONGEST_FD as usize) & (on_wire(length).length as usize == length)
    } else {
        length <= LONGEST_CLASSIC as usize
    }
}
