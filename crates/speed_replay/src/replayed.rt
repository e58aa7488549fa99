// The rounds replayed: lists of events over the driver's arrays, with the state tested once for each list and not for each call.
use crate::events;
use crate::events::EVENTS;
use can::State;
use can_replay::replay::replay;
use speed_setup::chips;

// So many lists, each on what the last one left.
fn all(state: State, ram: &mut [u8], sheet: &mut [u32], lists: u32) -> State {
    let kinds = events::kinds();
    let places = [0u32; EVENTS];
    let values = events::values();
    let handles = [7u16; EVENTS];
    let starts = events::starts();
    let ends = events::ends();
    let data = events::DATA;
    let mut s = state;
    for _ in 0..lists {
        s = replay(
            s, &kinds, &places, &values, &handles, &starts, &ends, &data, ram, sheet,
        );
    }
    s
}

// The sum of the bytes, as far as a word holds it.
fn sum(bytes: &[u8]) -> u32 {
    let mut total = 0u32;
    for byte in bytes {
        total = total.wrapping_add(u32::from(*byte));
    }
    total
}

// The sum of the words, as far as a word holds it.
fn words_sum(words: &[u32]) -> u32 {
    let mut total = 0u32;
    for word in words {
        total = total.wrapping_add(*word);
    }
    total
}

// The sums of the memory's bytes and of the sheet's words show that both programs came to the same end.
fn told(stdout: &impl Print, name: &str, ram: &[u8], sheet: &[u32]) {
    let bytes = sum(ram);
    let words = words_sum(sheet);
    let _ = println!(stdout; "{name}: {bytes} in memory, {words} on the sheet");
}

fn small(stdout: &impl Print, lists: u32) {
    let mut ram = [0u8; can::RAM_SIZE];
    let mut sheet = [0u32; can::SHEET_SIZE];
    let called = can::init(can::initial_state(), &mut ram, &mut sheet, &chips::SMALL);
    all(called.state, &mut ram, &mut sheet, lists);
    told(stdout, "1 controller, 2 objects", &ram, &sheet);
}

fn full(stdout: &impl Print, lists: u32) {
    let mut ram = [0u8; can::RAM_SIZE];
    let mut sheet = [0u32; can::SHEET_SIZE];
    let bytes = chips::full();
    let called = can::init(can::initial_state(), &mut ram, &mut sheet, &bytes);
    all(called.state, &mut ram, &mut sheet, lists);
    told(stdout, "4 controllers, 32 objects", &ram, &sheet);
}

pub fn rounds(stdout: &impl Print, rounds: u32) {
    let lists = rounds / (events::ROUNDS as u32);
    small(stdout, lists);
    full(stdout, lists);
}
