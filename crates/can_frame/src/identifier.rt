// Identifier words: bit 31 marks an extended identifier, bit 30 an FD frame.
ghost use Rattle.std.specs.Prelude.{◌≡◌, ◌+◌, ◌-◌, ◌*◌, ◌^◌, ◌<◌};
ghost use Rattle.rules.specs.Can as can;

// Bit 29, which no identifier uses.
const UNUSED: u32 = 0x2000_0000;

// Bits 28 to 11, which only an extended identifier uses.
pub const EXTENDED_ONLY: u32 = 0x1FFF_F800;

// The identifier is an extended one.
pub fn is_extended(identifier: u32) -> bool
    ensures { result ≡ can.is_extended identifier }
{
    identifier >> 31 == 1
}

// The frame is an FD frame.
pub fn is_fd(identifier: u32) -> bool
    ensures { result ≡ can.is_fd identifier }
{
    (identifier >> 30) % 2 == 1
}

// Reason 34 does not apply: the identifier has only bits that its kind uses.
pub fn identifier_good(identifier: u32) -> bool
    ensures { result ≡ can.identifier_good identifier }
{
    (identifier & UNUSED == 0) & ((identifier >> 31 == 1) | (identifier & EXTENDED_ONLY == 0))
}

// The 11 bits of a base identifier.
const BASE: u32 = 0x7FF;

// The 18 bits that an extended identifier has below its base.
const LOWER: u32 = 0x3_FFFF;

// The kinds as 02's order has them: standard before extended.
const STANDARD: u32 = 0;

const EXTENDED: u32 = 1;

// The highest number of 30 bits.
const HIGHEST: u32 = 0x3FFF_FFFF;

// 02's order as one number: base, then kind, then lower bits. The first of them ranks highest.
fn rank(base: u32, kind: u32, lower: u32) -> u32
    requires { (base < 2 ^ 11) × (kind < 2) × (lower < 2 ^ 18) }
    ensures { result ≡ 2 ^ 30 - 1 - ((base * 2 + kind) * 2 ^ 18 + lower) }
{
    HIGHEST - ((base << 19) + (kind << 18) + lower)
}

// How an identifier ranks among those that wait to be sent. A standard one is all base.
pub fn priority(identifier: u32) -> u32
    ensures { result ≡ 2 ^ 30 - 1 - can.arbitration_key identifier }
{
    if is_extended(identifier) {
        rank(identifier >> 18 & BASE, EXTENDED, identifier & LOWER)
    } else {
        rank(identifier & BASE, STANDARD, 0)
    }
}
