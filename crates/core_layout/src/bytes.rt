// Runs of bytes in lent memory.
ghost use Rattle.std.specs.Prelude.{◌≡◌, ◌+◌, ◌≤◌, ◌<◌, ◌^◌, length, replicate};
ghost use Rattle.rules.specs.Bytes.{splice, number, part};

// Writes all of source into ram from position at. A loop, since copy_from_slice was tried and made the calls slower.
pub fn put_bytes(ram: &mut [u8], at: usize, source: &[u8])
    requires { at + length source.now ≤ length ram.old }
    ensures { ram.new ≡ splice at source.now ram.old }
{
    for (i, byte) in source.iter().enumerate() {
        ram[at + i] = *byte;
    }
}

// Writes value count times from position at.
pub fn fill(ram: &mut [u8], at: usize, count: usize, value: u8)
    requires { at + count ≤ length ram.old }
    ensures { ram.new ≡ splice at (replicate count value) ram.old }
{
    ram[at..at + count].fill(value);
}

// Every byte becomes zero.
pub fn clear(ram: &mut [u8])
    ensures { ram.new ≡ replicate (length ram.old) 0 }
{
    ram.fill(0);
}

// The number that one byte spells.
pub fn byte(bytes: &[u8], at: usize) -> u32
    requires { at < length bytes.now }
    ensures { result ≡ number (part at 1 bytes.now) }
{
    u32::from(bytes[at])
}

// The number that two bytes spell, the highest first.
pub fn number_2(bytes: &[u8], at: usize) -> u32
    requires { at + 2 ≤ length bytes.now }
    ensures { (result ≡ number (part at 2 bytes.now)) × (result < 2 ^ 16) }
{
    u32::from(u16::from_be_bytes([bytes[at], bytes[at + 1]]))
}

// The number that four bytes spell, the highest first.
pub fn number_4(bytes: &[u8], at: usize) -> u32
    requires { at + 4 ≤ length bytes.now }
    ensures { result ≡ number (part at 4 bytes.now) }
{
    u32::from_be_bytes([bytes[at], bytes[at + 1], bytes[at + 2], bytes[at + 3]])
}
