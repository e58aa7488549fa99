// The first bytes of a configuration: a fixed string, the version, the two counts, and a zero byte.
ghost use Rattle.std.specs.Prelude.{◌≡◌, length, take};
ghost use Rattle.rules.specs.Bytes.{same_bytes};
ghost use Rattle.rules.specs.Configuration.{version_of, header_valid};
ghost use Rattle.rules.specs.Can.{can_format, header, known_version};
ghost use Rattle.rules.specs.Chip as rules;

use core_places::at::number_at;

// Where the version, the two counts and the zero byte stand; the records begin after so many bytes.
pub const VERSION_AT: usize = 3;

pub const CONTROLLERS_AT: usize = 5;

pub const OBJECTS_AT: usize = 6;

pub const ZERO_AT: usize = 7;

pub const HEADER_SIZE: usize = 8;

// The version that the bytes say.
#[tactic(auto, unfolding(rules::specs::Bytes::number))]
pub fn version_of(bytes: &[u8]) -> u32
    ensures { result ≡ version_of bytes.now }
{
    let high = number_at(bytes, VERSION_AT);
    let low = number_at(bytes, VERSION_AT + 1);
    u16::from_be_bytes([high, low]) as u32
}

// Whether there is such a version.
pub fn known_version(version: u32) -> bool
    ensures { result ≡ known_version version }
{
    (version == 1) | (version == 2)
}

// Whether the bytes begin with "CHB".
pub fn mark_matches(bytes: &[u8]) -> bool
    ensures { result ≡ same_bytes (take (length header) bytes.now) header }
{
    bytes.starts_with(b"CHB")
}

// Whether the bytes begin with "CHB" and a version that there is, and have a zero byte after the counts.
pub fn header_matches(bytes: &[u8]) -> bool
    ensures { result ≡ header_valid rules.chip can_format bytes.now }
{
    let known = known_version(version_of(bytes));
    let last = number_at(bytes, ZERO_AT);
    mark_matches(bytes) & known & (last == 0)
}
