// Configuration bytes: K, and for each rule an example that breaks just that one, with both sides of each limit.
use crate::out::{number, text};

// Configuration K.
pub const K: [u8; 32] = [
    0x43, 0x48, 0x42, 0x00, 0x01, 0x01, 0x02, 0x00, //
    0x00, 0x00, 0x40, 0xCC, 0x00, 0x00, 0x00, 0x00, 0x00, 0x00, 0x00, 0x00, //
    0x00, 0x01, 0x08, 0x00, 0x00, 0x00, 0x01, 0x20, 0x00, 0x00, 0x07, 0xFF,
];

// Where the records of K's two objects begin.
const SENDING: usize = 8;

pub const RECEIVING: usize = 20;

// Prints what the reader makes of the bytes.
fn show(stdout: &impl Print, name: &[u8], bytes: &[u8]) {
    text(stdout, name);
    match can_config::read::read(bytes) {
        Some(reading) => {
            text(stdout, b": accepted, controllers ");
            number(stdout, reading.setup.controller_count as u64);
            text(stdout, b", objects ");
            number(stdout, reading.setup.object_count as u64);
            text(stdout, b"\n");
        }
        None => text(stdout, b": bad\n"),
    }
}

fn show_changed(stdout: &impl Print, name: &[u8], bytes: &[u8; 32]) {
    show(stdout, name, bytes);
}

// K with one byte changed.
fn changed(stdout: &impl Print, name: &[u8], at: usize, value: u8) {
    let mut bytes = K;
    if at < 32 {
        bytes[at] = value;
    }
    show_changed(stdout, name, &bytes);
}

// K with two bytes changed.
fn changed_twice(stdout: &impl Print, name: &[u8], at: usize, value: u8, at_2: usize, value_2: u8) {
    let mut bytes = K;
    if at < 32 {
        bytes[at] = value;
    }
    if at_2 < 32 {
        bytes[at_2] = value_2;
    }
    show_changed(stdout, name, &bytes);
}

pub fn header(stdout: &impl Print) {
    text(stdout, b"configurations: header\n");
    show(stdout, b"K", &K);
    changed(stdout, b"first byte 44", 0, 0x44);
    changed(stdout, b"second byte 49", 1, 0x49);
    changed(stdout, b"third byte 41", 2, 0x41);
    changed(stdout, b"version 01 01", 3, 0x01);
    changed(stdout, b"version 00 00", 4, 0x00);
    changed(stdout, b"version 00 02", 4, 0x02);
    changed(stdout, b"version 00 03", 4, 0x03);
    changed(stdout, b"controllers 0", 5, 0);
    changed(stdout, b"controllers 1", 5, 1);
    changed(stdout, b"controllers 4", 5, 4);
    changed(stdout, b"controllers 5", 5, 5);
    changed(stdout, b"objects 1 in the bytes of 2", 6, 1);
    changed(stdout, b"objects 3 in the bytes of 2", 6, 3);
    changed(stdout, b"last header byte 1", 7, 1);
}

pub fn records(stdout: &impl Print) {
    text(stdout, b"configurations: records\n");
    changed(stdout, b"sending: controller 1 of 1", SENDING, 1);
    changed_twice(stdout, b"sending: controller 1 of 2", 5, 2, SENDING, 1);
    changed(stdout, b"sending: kind 2", SENDING + 1, 2);
    changed(stdout, b"sending: payload 7", SENDING + 2, 7);
    changed(stdout, b"sending: payload 8", SENDING + 2, 8);
    changed(stdout, b"sending: payload 9", SENDING + 2, 9);
    changed(stdout, b"sending: payload 65", SENDING + 2, 65);
    changed(stdout, b"sending: padding FF", SENDING + 3, 0xFF);
    changed(stdout, b"sending: code 80000000", SENDING + 4, 0x80);
    changed(stdout, b"sending: code 1", SENDING + 7, 0x01);
    changed(stdout, b"sending: mask 80000000", SENDING + 8, 0x80);
    changed(stdout, b"sending: mask 1", SENDING + 11, 0x01);
    changed(stdout, b"receiving: controller 1 of 1", RECEIVING, 1);
    changed(stdout, b"receiving: kind 2", RECEIVING + 1, 2);
    changed(stdout, b"receiving: kind 255", RECEIVING + 1, 255);
    changed(stdout, b"receiving: payload 64", RECEIVING + 2, 64);
    changed(stdout, b"receiving: payload 63", RECEIVING + 2, 63);
    changed(stdout, b"receiving: padding 1", RECEIVING + 3, 1);
    changed(stdout, b"receiving: code bit 30", RECEIVING + 4, 0x40);
    changed(stdout, b"receiving: code bit 29", RECEIVING + 4, 0x20);
    changed_twice(
        stdout,
        b"receiving: code and mask bit 28, standard",
        RECEIVING + 4,
        0x10,
        RECEIVING + 8,
        0x10,
    );
    changed_twice(
        stdout,
        b"receiving: code and mask bit 11, standard",
        RECEIVING + 6,
        0x09,
        RECEIVING + 10,
        0x0F,
    );
    changed(
        stdout,
        b"receiving: code bit 10, standard",
        RECEIVING + 6,
        0x05,
    );
    changed(stdout, b"receiving: code bit 31", RECEIVING + 4, 0x80);
    changed_twice(
        stdout,
        b"receiving: code bits 31 and 28, mask bit 28",
        RECEIVING + 4,
        0x90,
        RECEIVING + 8,
        0x10,
    );
    changed(
        stdout,
        b"receiving: code bits 31 and 28",
        RECEIVING + 4,
        0x90,
    );
    changed(
        stdout,
        b"receiving: code bits 31 and 30",
        RECEIVING + 4,
        0xC0,
    );
    changed(
        stdout,
        b"receiving: code bits 31 and 29",
        RECEIVING + 4,
        0xA0,
    );
    changed(stdout, b"receiving: mask bit 31", RECEIVING + 8, 0x80);
    changed(stdout, b"receiving: mask bit 30", RECEIVING + 8, 0x40);
    changed(stdout, b"receiving: mask bit 29", RECEIVING + 8, 0x20);
    changed(
        stdout,
        b"receiving: mask bit 28, standard",
        RECEIVING + 8,
        0x10,
    );
    changed(
        stdout,
        b"receiving: mask bit 11, standard",
        RECEIVING + 10,
        0x0F,
    );
    changed(
        stdout,
        b"receiving: mask bit 10, standard",
        RECEIVING + 10,
        0x05,
    );
    changed(
        stdout,
        b"receiving: mask without code bit 8",
        RECEIVING + 10,
        0x04,
    );
    changed_twice(
        stdout,
        b"receiving: mask bit 28, extended",
        RECEIVING + 4,
        0x80,
        RECEIVING + 8,
        0x10,
    );
    changed_twice(
        stdout,
        b"receiving: mask bit 29, extended",
        RECEIVING + 4,
        0x80,
        RECEIVING + 8,
        0x20,
    );
}

// Room for 33 records and a few bytes more.
const ROOM: usize = 408;

// A header that names so many objects, and 33 records of sending objects with a payload of 8.
fn sending_objects(objects: u8) -> [u8; ROOM] {
    let mut bytes = [0u8; ROOM];
    bytes[0] = 0x43;
    bytes[1] = 0x48;
    bytes[2] = 0x42;
    bytes[4] = 1;
    bytes[5] = 1;
    bytes[6] = objects;
    for h in 0..33 {
        bytes[8 + 12 * h + 2] = 8;
    }
    bytes
}

fn show_first(stdout: &impl Print, name: &[u8], bytes: &[u8], length: usize) {
    if length <= bytes.len() {
        show(stdout, name, &bytes[..length]);
    }
}

fn show_room(stdout: &impl Print, name: &[u8], bytes: &[u8; ROOM], length: usize) {
    show_first(stdout, name, bytes, length);
}

// So many objects in so many bytes.
fn many(stdout: &impl Print, name: &[u8], objects: u8, length: usize) {
    let bytes = sending_objects(objects);
    show_room(stdout, name, &bytes, length);
}

pub fn sizes(stdout: &impl Print) {
    text(stdout, b"configurations: sizes\n");
    show(stdout, b"no bytes", &K[..0]);
    show(stdout, b"header only, one byte short", &K[..7]);
    show(stdout, b"K, one byte short", &K[..31]);
    many(stdout, b"objects 0", 0, 8);
    many(stdout, b"objects 0, one byte short", 0, 7);
    many(stdout, b"objects 0, one byte long", 0, 9);
    many(stdout, b"objects 2, one byte long", 2, 33);
    many(stdout, b"objects 32", 32, 392);
    many(stdout, b"objects 32, one byte short", 32, 391);
    many(stdout, b"objects 32, one byte long", 32, 393);
    many(stdout, b"objects 33", 33, 404);
    many(stdout, b"objects 33, one byte short", 33, 403);
    many(stdout, b"objects 33, one byte long", 33, 405);
}
