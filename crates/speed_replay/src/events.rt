// The same rounds as lists of events: a list has so many rounds of sixteen calls, every number in an array of its own.

// Rounds in a list.
pub const ROUNDS: usize = 64;

// Calls in a round.
const CALLS: usize = 16;

pub const EVENTS: usize = ROUNDS * CALLS;

// SetControllerMode, mode poll, Write, Sent, write poll; Arrived, read poll, GetControllerMode; Write twice, SetControllerMode, mode poll,
// SetControllerMode, mode poll; Bus-off, bus-off poll.
const KINDS: [u8; CALLS] = [2, 7, 4, 9, 5, 11, 6, 3, 4, 4, 2, 7, 2, 7, 10, 8];

// The mode asked for, or the identifier.
const VALUES: [u32; CALLS] = [
    1, 0, 0x40000123, 0, 0, 0x120, 0, 0, 0x40000123, 0x40000123, 2, 0, 1, 0, 0, 0,
];

// The nine bytes of a write stand first, the eight of an arrival behind them.
pub const DATA: [u8; 17] = *b"\x01\x02\x03\x04\x05\x06\x07\x08\x09pressure";

const STARTS: [u32; CALLS] = [0, 0, 0, 0, 0, 9, 0, 0, 0, 0, 0, 0, 0, 0, 0, 0];

const ENDS: [u32; CALLS] = [0, 0, 9, 0, 0, 17, 0, 0, 9, 9, 0, 0, 0, 0, 0, 0];

pub fn kinds() -> [u8; EVENTS] {
    let round = KINDS;
    let mut all = [0u8; EVENTS];
    for i in 0..EVENTS {
        all[i] = round[i % CALLS];
    }
    all
}

// The numbers of a round, once for each round of the list.
fn repeated(round: [u32; CALLS]) -> [u32; EVENTS] {
    let mut all = [0u32; EVENTS];
    for i in 0..EVENTS {
        all[i] = round[i % CALLS];
    }
    all
}

pub fn values() -> [u32; EVENTS] {
    repeated(VALUES)
}

pub fn starts() -> [u32; EVENTS] {
    repeated(STARTS)
}

pub fn ends() -> [u32; EVENTS] {
    repeated(ENDS)
}
