// Configurations of version 2: one with two objects in a pool, and for each rule of pools an example that breaks just that one.
use crate::out::{number, text};
use can::OBJECTS;
use can_config::setup::Setup;

// Version 2, two controllers: objects 0 and 1 send in pool 5, object 2 receives.
const POOLED: [u8; 44] = [
    0x43, 0x48, 0x42, 0x00, 0x02, 0x02, 0x03, 0x00, //
    0x00, 0x00, 0x40, 0xCC, 0x00, 0x00, 0x00, 0x05, 0x00, 0x00, 0x00, 0x00, //
    0x00, 0x00, 0x40, 0xCC, 0x00, 0x00, 0x00, 0x05, 0x00, 0x00, 0x00, 0x00, //
    0x00, 0x01, 0x08, 0x00, 0x00, 0x00, 0x01, 0x20, 0x00, 0x00, 0x07, 0xFF,
];

// Where the records begin.
const FIRST: usize = 8;

const SECOND: usize = 20;

const RECEIVING: usize = 32;

// Prints the pool of an object.
fn show_pool(stdout: &impl Print, setup: Setup, h: usize) {
    if h < OBJECTS {
        text(stdout, b" ");
        number(stdout, setup.owners.at(h).pool as u64);
    }
}

// Prints what the reader makes of the bytes: the version, and the pools of the three objects.
fn show(stdout: &impl Print, name: &[u8], bytes: &[u8; 44]) {
    text(stdout, name);
    match can_config::read::read(bytes) {
        Some(reading) => {
            text(stdout, b": accepted, version ");
            number(stdout, reading.version as u64);
            text(stdout, b", pools");
            show_pool(stdout, reading.setup, 0);
            show_pool(stdout, reading.setup, 1);
            show_pool(stdout, reading.setup, 2);
            text(stdout, b"\n");
        }
        None => text(stdout, b": bad\n"),
    }
}

fn changed_twice(stdout: &impl Print, name: &[u8], at: usize, value: u8, at_2: usize, value_2: u8) {
    let mut bytes = POOLED;
    if at < 44 {
        bytes[at] = value;
    }
    if at_2 < 44 {
        bytes[at_2] = value_2;
    }
    show(stdout, name, &bytes);
}

fn changed(stdout: &impl Print, name: &[u8], at: usize, value: u8) {
    changed_twice(stdout, name, at, value, at, value);
}

// The same objects in version 1, where each is its own pool.
fn version_1(stdout: &impl Print) {
    let mut bytes = POOLED;
    bytes[4] = 1;
    bytes[FIRST + 7] = 0;
    bytes[SECOND + 7] = 0;
    show(stdout, b"version 00 01, no pool said", &bytes);
}

pub fn pools(stdout: &impl Print) {
    text(stdout, b"configurations: pools\n");
    changed(stdout, b"pool 5 twice", 0, 0x43);
    changed(stdout, b"version 00 01", 4, 1);
    changed(stdout, b"version 00 00", 4, 0);
    changed(stdout, b"version 00 03", 4, 3);
    changed(stdout, b"version 01 02", 3, 1);
    changed_twice(stdout, b"version 00 01, one pool said", 4, 1, FIRST + 7, 0);
    version_1(stdout);
    changed(stdout, b"pool 0", FIRST + 7, 0);
    changed(stdout, b"pool 31", FIRST + 7, 31);
    changed(stdout, b"pool 32", FIRST + 7, 32);
    changed(stdout, b"pool 255", FIRST + 7, 255);
    changed(stdout, b"code 100 beside the pool", FIRST + 6, 1);
    changed(stdout, b"code 80000000 beside the pool", FIRST + 4, 0x80);
    changed(stdout, b"mask 1", FIRST + 11, 1);
    changed(stdout, b"controllers disagree", SECOND, 1);
    changed_twice(
        stdout,
        b"another controller, another pool",
        SECOND,
        1,
        SECOND + 7,
        6,
    );
    changed(stdout, b"payloads disagree", SECOND + 2, 8);
    changed_twice(
        stdout,
        b"another payload, another pool",
        SECOND + 2,
        8,
        SECOND + 7,
        6,
    );
    changed(stdout, b"paddings disagree", SECOND + 3, 0xCD);
    changed_twice(
        stdout,
        b"another padding, another pool",
        SECOND + 3,
        0xCD,
        SECOND + 7,
        6,
    );
    changed(
        stdout,
        b"the last byte of a receiving object's code",
        RECEIVING + 7,
        0x21,
    );
}
