// An object's bytes.
use bench_messages::frames;
use bench_text::put::{put, put_hex};
use can::{OBJECT_SIZE, OBJECTS, RAM_SIZE};
use core_layout::bytes::{number_2, number_4};
use core_layout::head::HEAD_SIZE;

// All bytes of an object; none where there is no such object.
pub fn bytes(memory: &[u8], object: u32) -> &[u8] {
    let h = object as usize;
    if OBJECTS <= h {
        return &memory[..0];
    }
    if memory.len() < RAM_SIZE {
        return &memory[..0];
    }
    let start = OBJECT_SIZE * h;
    let end = start + OBJECT_SIZE;
    &memory[start..end]
}

// A byte as a wider number.
fn wide(b: u8) -> u64 {
    b as u64
}

// An object in words: what the bytes before the data say, then the data.
pub fn shown(out: &mut [u8], at: usize, object: &[u8]) -> usize {
    if object.len() < HEAD_SIZE {
        return put(out, at, b"          none\n");
    }
    let mut end = frames::head(
        out,
        at,
        number_4(object, 0) as u64,
        wide(object[4]),
        wide(object[5]),
        number_2(object, 6) as u64,
    );
    end = put_hex(out, end, &object[HEAD_SIZE..]);
    put(out, end, b"\n")
}
