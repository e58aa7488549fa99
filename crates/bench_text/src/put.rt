// Text in a buffer. Each function writes from position at on, as much as fits, and answers the position behind it.
ghost use Rattle.std.specs.Prelude.{◌≡◌, [], ◌∷◌, ◌-◌, ◌<◌, min, replicate};
ghost use Rattle.bench_text.specs.Put as puts;
ghost use Rattle.io.specs.Digits as digits;

use core_layout::bytes::{fill, put_bytes};

// Whether count bytes fit from position at on.
pub fn has_room(size: usize, at: usize, count: usize) -> bool
    ensures { result ≡ puts.has_room size at count }
{
    at <= size && count <= size - at
}

// How many of count bytes fit from position at on.
fn fitting(size: usize, at: usize, count: usize) -> usize
    ensures { result ≡ min (size - at) count }
{
    size.saturating_sub(at).min(count)
}

// Bytes as they are.
#[tactic(auto, using(crate::proofs::Writing::nothing_fits))]
pub fn put(out: &mut [u8], at: usize, bytes: &[u8]) -> usize
    ensures { puts.Put at bytes.now out.old out.new result }
{
    let count = fitting(out.len(), at, bytes.len());
    if count == 0 {
        return at;
    }
    put_bytes(out, at, &bytes[..count]);
    at + count
}

// One byte over and over.
#[tactic(auto, using(crate::proofs::Writing::nothing_fits))]
pub fn put_repeated(out: &mut [u8], at: usize, count: usize, byte: u8) -> usize
    ensures { puts.Put at (replicate count byte) out.old out.new result }
{
    let fits = fitting(out.len(), at, count);
    if fits == 0 {
        return at;
    }
    fill(out, at, fits, byte);
    at + fits
}

// A number in decimal.
#[tactic(auto, using(crate::proofs::Writing::numeral_is))]
pub fn put_decimal(out: &mut [u8], at: usize, n: u64) -> usize
    ensures { puts.Put at (puts.decimal n) out.old out.new result }
{
    let mut digits = [0u8; 20];
    let count = io::decimal(n, &mut digits);
    put(out, at, &digits[..count])
}

// A number in hexadecimal, with zeros in front up to width digits; a width of 0 counts as 1, and one above 16 as 16.
#[tactic(auto, using(crate::proofs::Writing::numeral_is))]
pub fn put_hexadecimal(out: &mut [u8], at: usize, n: u64, width: usize) -> usize
    ensures { puts.Put at (puts.hexadecimal width n) out.old out.new result }
{
    let mut digits = [0u8; 16];
    let count = io::hex(n, width, &mut digits);
    put(out, at, &digits[..count])
}

// The digit of a number below 16.
fn glyph(n: u8) -> u8
    requires { n < 16 }
    ensures { result ≡ digits.hex_digit_ascii n }
{
    if n < 10 { n + b'0' } else { n - 10 + b'a' }
}

// Two hex digits for a byte.
#[tactic(auto, unfolding(crate::specs::Put::hex_of))]
fn put_pair(out: &mut [u8], at: usize, byte: u8) -> usize
    ensures { puts.Put at (puts.hex_of (byte ∷ [])) out.old out.new result }
{
    let pair = [glyph(byte / 16), glyph(byte % 16)];
    put(out, at, &pair)
}

// Bytes as hex digits in pairs.
pub fn put_hex(out: &mut [u8], at: usize, bytes: &[u8]) -> usize
    ensures { puts.Put at (puts.hex_of bytes.now) out.old out.new result }
{
    let mut end = at;
    for byte in bytes {
        end = put_pair(out, end, *byte);
    }
    end
}
