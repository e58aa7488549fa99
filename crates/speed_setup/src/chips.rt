// The two configurations that rounds are made on. Object 0 sends, object 1 receives, both on controller 0.
use can_chip::{CONTROLLERS, OBJECTS};

// One controller with the two objects alone: the paper's configuration K.
pub const SMALL: [u8; 32] =
    *b"CHB\x00\x01\x01\x02\x00\x00\x00\x40\xCC\x00\x00\x00\x00\x00\x00\x00\x00\x00\x01\x08\x00\x00\x00\x01\x20\x00\x00\x07\xFF";

pub const FULL: usize = 8 + 12 * OBJECTS;

// All controllers and objects in use: the others send, with a payload of 8.
pub fn full() -> [u8; FULL] {
    let mut bytes = [0u8; FULL];
    bytes[0] = b'C';
    bytes[1] = b'H';
    bytes[2] = b'B';
    bytes[4] = 1;
    bytes[5] = CONTROLLERS as u8;
    bytes[6] = OBJECTS as u8;
    for h in 0..OBJECTS {
        bytes[8 + 12 * h] = (h % CONTROLLERS) as u8;
        bytes[8 + 12 * h + 2] = 8;
    }
    bytes[10] = 64;
    bytes[11] = 0xCC;
    bytes[20] = 0;
    bytes[21] = 1;
    bytes[26] = 1;
    bytes[27] = 0x20;
    bytes[30] = 7;
    bytes[31] = 0xFF;
    bytes
}
