// The bytes of an object: identifier word (4 bytes), wire length (1), DLC code (1), handle (2), data (64).
ghost use Rattle.std.specs.Prelude.{◌≡◌, ◌∷◌, ◌++◌, ◌+◌, ◌-◌, ◌≤◌, length, replicate};
ghost use Rattle.rules.specs.Bytes.{splice, big_endian};
ghost use Rattle.rules.specs.Can.{longest_fd, object_bytes};
ghost use Rattle.rules.specs.Chip as rules;
ghost use Rattle.can_layout.specs.Object.{padded_with, has_room, LaidDown};

use can_chip::OBJECT_SIZE;
use can_frame::length::{WireLength, on_wire};
use core_layout::bytes::{fill, put_bytes};
use core_layout::head::HEAD_SIZE;

// The bytes of an object's data: as many as the longest frame has.
pub const DATA_SIZE: usize = OBJECT_SIZE - HEAD_SIZE;

// What stands before the data.
fn head(identifier: u32, wire: WireLength, handle: u16) -> [u8; HEAD_SIZE]
    ensures { result ≡ big_endian 4 identifier ++ (wire.length ∷ wire.dlc ∷ big_endian 2 handle) }
{
    let [a, b, c, d] = identifier.to_be_bytes();
    let [high, low] = handle.to_be_bytes();
    [a, b, c, d, wire.length, wire.dlc, high, low]
}

// Whether memory of ram bytes holds the whole object, and a frame holds length bytes of data.
fn has_room(object: usize, ram: usize, length: usize) -> bool
    ensures { result ≡ has_room object ram length }
{
    object < ram / OBJECT_SIZE && length <= DATA_SIZE
}

// Writes an object's data from position at: the sdu, padding up to the wire length, and zeros.
fn put_data(ram: &mut [u8], at: usize, wire: usize, padding: u8, sdu: &[u8])
    requires { (length sdu.now ≤ wire) × (wire ≤ longest_fd) × (at + longest_fd ≤ length ram.old) }
    ensures { ram.new ≡ splice at (sdu.now ++ (replicate (wire - length sdu.now) padding ++ replicate (longest_fd - wire) 0)) ram.old }
{
    put_bytes(ram, at, sdu);
    fill(ram, at + sdu.len(), wire - sdu.len(), padding);
    fill(ram, at + wire, DATA_SIZE - wire, 0);
}

// Writes a whole object from position at.
fn put_object(ram: &mut [u8], at: usize, padding: u8, handle: u16, identifier: u32, sdu: &[u8])
    requires { (at + (rules.chip).object_size ≤ length ram.old) × (length sdu.now ≤ longest_fd) }
    ensures { ram.new ≡ splice at (object_bytes (padded_with padding) handle (record { identifier = identifier; sdu = sdu.now })) ram.old }
{
    let wire = on_wire(sdu.len());
    put_bytes(ram, at, &head(identifier, wire, handle));
    put_data(ram, at + HEAD_SIZE, wire.length as usize, padding, sdu);
}

// Lays an object down whole and answers true, where the RAM has room for it and its data fits a frame. Else the RAM stays as it
// was, and the answer is false.
pub fn lay_down(
    ram: &mut [u8],
    object: usize,
    padding: u8,
    handle: u16,
    identifier: u32,
    sdu: &[u8],
) -> bool
    ensures { LaidDown object padding handle (record { identifier = identifier; sdu = sdu.now }) ram.old ram.new result }
{
    if has_room(object, ram.len(), sdu.len()) {
        put_object(ram, OBJECT_SIZE * object, padding, handle, identifier, sdu);
        true
    } else {
        false
    }
}
