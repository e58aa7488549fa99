// What a configuration may say of an object's frames.
ghost use Rattle.std.specs.Prelude.{◌≡◌, true, false};
ghost use Rattle.rules.specs.Can as can;

use crate::identifier::EXTENDED_ONLY;
use crate::length::{LONGEST_CLASSIC, LONGEST_FD};

// Bits 30 and 29, which a filter code leaves zero.
pub const CODE_UNUSED: u32 = 0x6000_0000;

// Bits 31 to 29, which a filter mask leaves zero.
pub const MASK_UNUSED: u32 = 0xE000_0000;

// Bits 28 to 0, those of an identifier.
const IDENTIFIER_MASK: u32 = 0x1FFF_FFFF;

// A sending object has no filter.
pub fn sending_valid(payload: u32, padding: u8, code: u32, mask: u32) -> bool
    ensures { result ≡ can.settings_valid false (record { payload = payload; padding = padding; code = code; mask = mask }) }
{
    ((payload == LONGEST_CLASSIC) | (payload == LONGEST_FD)) & ((code == 0) & (mask == 0))
}

// The code has no stray bit: none of bits 28 to 0 is a one in the code and a zero in the mask.
pub fn within_mask(code: u32, mask: u32) -> bool
    ensures { result ≡ can.within_mask code mask }
{
    code & mask & IDENTIFIER_MASK == code & IDENTIFIER_MASK
}

// A receiving object pads nothing, its filter uses only bits that a good identifier can have, and its code none outside its mask.
pub fn receiving_valid(payload: u32, padding: u8, code: u32, mask: u32) -> bool
    ensures { result ≡ can.settings_valid true (record { payload = payload; padding = padding; code = code; mask = mask }) }
{
    ((payload == LONGEST_CLASSIC) | (payload == LONGEST_FD))
        & ((padding == 0)
            & (code & CODE_UNUSED == 0)
            & (mask & MASK_UNUSED == 0)
            & ((code >> 31 == 1) | ((code & EXTENDED_ONLY == 0) & (mask & EXTENDED_ONLY == 0)))
            & within_mask(code, mask))
}

// Settings that Init accepts for an object of this kind. Both tests are made, with no branch between them, so that many objects are tested at once.
pub fn settings_valid(receiving: bool, payload: u32, padding: u8, code: u32, mask: u32) -> bool
    ensures { result ≡ can.settings_valid receiving (record { payload = payload; padding = padding; code = code; mask = mask }) }
{
    let receives = receiving_valid(payload, padding, code, mask);
    let sends = sending_valid(payload, padding, code, mask);
    if receiving { receives } else { sends }
}

// The settings of an unused place: all zero.
pub fn settings_unused(payload: u32, padding: u8, code: u32, mask: u32) -> bool
    ensures { result ≡ can.settings_unused (record { payload = payload; padding = padding; code = code; mask = mask }) }
{
    (payload == 0) & (padding == 0) & (code == 0) & (mask == 0)
}
