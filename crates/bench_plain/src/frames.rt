// Frames in words.
use crate::book::{origin, sent_at};
use bench_messages::frames;
use can::{OBJECT_SIZE, OBJECTS, RAM_SIZE};
use core_layout::head::{handle_at, identifier_at};

// The identifier word that an object's bytes begin with; 0 where there is no such object.
pub fn identifier_in(ram: &[u8], object: u32) -> u64 {
    let h = object as usize;
    if OBJECTS <= h {
        return 0;
    }
    if ram.len() != RAM_SIZE {
        return 0;
    }
    identifier_at(ram, OBJECT_SIZE, h) as u64
}

// The handle that an object's bytes name; 0 where there is no such object.
pub fn handle_in(ram: &[u8], object: u32) -> u64 {
    let h = object as usize;
    if OBJECTS <= h {
        return 0;
    }
    if ram.len() != RAM_SIZE {
        return 0;
    }
    handle_at(ram, OBJECT_SIZE, h) as u64
}

// The data of an object's frame, to the end of the line.
pub fn data(out: &mut [u8], at: usize, ram: &[u8], object: u32) -> usize {
    frames::data(out, at, can::data_of(ram, object))
}

// The frame of a sending object: object, handle, identifier, and the line that wrote it.
pub fn written(
    out: &mut [u8],
    at: usize,
    book: &[u64],
    ram: &[u8],
    object: u32,
    handle: u64,
) -> usize {
    let identifier = identifier_in(ram, object);
    let line = origin(book, object);
    frames::written(out, at, object as u64, handle, identifier, line)
}

// The line of the sent event, if there was one.
pub fn sent(out: &mut [u8], at: usize, book: &[u64], object: u32, done: bool) -> usize {
    frames::sent(out, at, done, sent_at(book, object))
}
