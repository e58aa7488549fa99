// The filter of a receiving object.
ghost use Rattle.std.specs.Prelude.{◌≡◌};
ghost use Rattle.rules.specs.Can as can;

use crate::length::LONGEST_FD;

// Whether an object with this code, mask and payload takes the frame; the controller is left aside.
// Bit 31 is always compared, bit 30 is not: an FD frame asks for a payload of 64 instead.
pub fn filter_accepts(identifier: u32, code: u32, mask: u32, payload: u32) -> bool
    ensures { result ≡ can.filter_accepts identifier code mask payload }
{
    (identifier >> 31 == code >> 31)
        & (identifier & mask == code & mask)
        & (!((identifier >> 30) % 2 == 1) | (payload == LONGEST_FD))
}
