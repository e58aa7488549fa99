// Numbers at positions of a case, the highest byte first.
use core_places::at::number_at;
use core_places::range::limited;

// The position so many bytes further on.
pub fn further(at: usize, count: usize) -> usize {
    std::num::wrapping_add_usize(at, count)
}

// The bytes from a position on; none past the end.
pub fn after(bytes: &[u8], at: usize) -> &[u8] {
    let start = limited(at, bytes.len());
    &bytes[start..]
}

// A number of four bytes.
pub fn number(bytes: &[u8], at: usize) -> u32 {
    let first = number_at(bytes, at) as u32;
    let second = number_at(bytes, further(at, 1)) as u32;
    let third = number_at(bytes, further(at, 2)) as u32;
    let last = number_at(bytes, further(at, 3)) as u32;
    (first << 24) | (second << 16) | (third << 8) | last
}

// A number of one byte.
pub fn small(bytes: &[u8], at: usize) -> u8 {
    number_at(bytes, at)
}

// A byte that is not zero says yes.
pub fn flag(bytes: &[u8], at: usize) -> bool {
    number_at(bytes, at) != 0
}
