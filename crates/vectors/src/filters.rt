// Filter codes and masks, on both sides of each rule about them: what Init says of a configuration that has them, and what a call says of a
// state that holds them.
use crate::configurations::{K, RECEIVING};
use crate::out::{number, text, word};

// K with another filter.
fn configuration(code: u32, mask: u32) -> [u8; 32] {
    let mut bytes = K;
    bytes[RECEIVING + 4] = (code / 16777216 % 256) as u8;
    bytes[RECEIVING + 5] = (code / 65536 % 256) as u8;
    bytes[RECEIVING + 6] = (code / 256 % 256) as u8;
    bytes[RECEIVING + 7] = (code % 256) as u8;
    bytes[RECEIVING + 8] = (mask / 16777216 % 256) as u8;
    bytes[RECEIVING + 9] = (mask / 65536 % 256) as u8;
    bytes[RECEIVING + 10] = (mask / 256 % 256) as u8;
    bytes[RECEIVING + 11] = (mask % 256) as u8;
    bytes
}

// The reason that Init gives, 0 for none.
fn reason_of_init(code: u32, mask: u32) -> u32 {
    let mut ram = [0u8; can::RAM_SIZE];
    let mut sheet = [0u32; can::SHEET_SIZE];
    let bytes = configuration(code, mask);
    let called = can::init(can::initial_state(), &mut ram, &mut sheet, &bytes);
    can::verdict_reason(called.reply)
}

// The reason that GetControllerMode gives in the state that K leaves, once it is made to hold this filter.
fn reason_of_state(code: u32, mask: u32) -> u32 {
    let mut ram = [0u8; can::RAM_SIZE];
    let mut sheet = [0u32; can::SHEET_SIZE];
    let called = can::init(can::initial_state(), &mut ram, &mut sheet, &K);
    let mut state = called.state;
    let mut settings = state.settings.at(1);
    settings.code = code;
    settings.mask = mask;
    state.settings.set(1, settings);
    let asked = can::get_controller_mode(state, &mut sheet, 0);
    can::verdict_reason(asked.reply)
}

fn filter(stdout: &impl Print, code: u32, mask: u32) {
    word(stdout, code);
    text(stdout, b" ");
    word(stdout, mask);
    text(stdout, b" ");
    number(stdout, reason_of_init(code, mask) as u64);
    text(stdout, b" ");
    number(stdout, reason_of_state(code, mask) as u64);
    text(stdout, b"\n");
}

// Bits of a code outside its mask: with no mask bit, with all of them, with all but the lowest or the highest.
pub fn stray_bits(stdout: &impl Print) {
    text(stdout, b"code, mask, reason of Init, reason in a state\n");
    filter(stdout, 0x0000_0000, 0x0000_0000);
    filter(stdout, 0x0000_0001, 0x0000_0000);
    filter(stdout, 0x0000_0400, 0x0000_0000);
    filter(stdout, 0x0000_0000, 0x0000_07FF);
    filter(stdout, 0x0000_07FF, 0x0000_07FF);
    filter(stdout, 0x0000_07FF, 0x0000_07FE);
    filter(stdout, 0x0000_07FF, 0x0000_03FF);
    filter(stdout, 0x0000_0120, 0x0000_07FF);
    filter(stdout, 0x0000_0120, 0x0000_07FE);
    filter(stdout, 0x0000_0121, 0x0000_07FE);
    filter(stdout, 0x8000_0000, 0x0000_0000);
    filter(stdout, 0x8000_0001, 0x0000_0000);
    filter(stdout, 0x9000_0000, 0x0000_0000);
    filter(stdout, 0x8000_0000, 0x1FFF_FFFF);
    filter(stdout, 0x9FFF_FFFF, 0x1FFF_FFFF);
    filter(stdout, 0x9FFF_FFFF, 0x1FFF_FFFE);
    filter(stdout, 0x9FFF_FFFF, 0x0FFF_FFFF);
}
