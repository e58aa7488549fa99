// Lengths on the wire, and identifiers.
use crate::out::{number, text, word};
use can_frame::identifier::identifier_good;
use can_frame::length::on_wire;

fn length(stdout: &impl Print, n: usize) {
    let wire = on_wire(n);
    number(stdout, n as u64);
    text(stdout, b" ");
    number(stdout, wire.length as u64);
    text(stdout, b" ");
    number(stdout, wire.dlc as u64);
    text(stdout, b"\n");
}

// The 65 lengths with their wire lengths and DLC codes.
pub fn lengths(stdout: &impl Print) {
    text(stdout, b"length, wire length, DLC code\n");
    for n in 0usize..65 {
        length(stdout, n);
    }
}

fn identifier(stdout: &impl Print, n: u32) {
    word(stdout, n);
    if identifier_good(n) {
        text(stdout, b" good\n");
    } else {
        text(stdout, b" not good\n");
    }
}

// P13.
pub fn identifiers(stdout: &impl Print) {
    text(stdout, b"identifiers\n");
    identifier(stdout, 0x0000_07FF);
    identifier(stdout, 0x9FFF_FFFF);
    identifier(stdout, 0x0000_0800);
    identifier(stdout, 0x2000_0000);
    identifier(stdout, 0xA000_0000);
}
