// What goes wrong with a whole night, in one line on standard error.
use bench_messages::reports;
use bench_plain::night::Desk;

const ROOM: usize = 256;

// Says the first bytes of a text. Where even that fails, there is nobody to tell.
fn said(stderr: &impl Print, text: &[u8], end: usize) {
    let count = end.min(text.len());
    let _ = stderr.write_all(&text[..count]);
}

// The night was stopped, since its output could not be written, or its script not read.
pub fn unwritten(stderr: &impl Print, lines: u64) {
    let mut text = [0u8; ROOM];
    let end = reports::unwritten(&mut text, 0, lines);
    said(stderr, &text, end);
}

pub fn unread(stderr: &impl Print, lines: u64) {
    let mut text = [0u8; ROOM];
    let end = reports::unread(&mut text, 0, lines);
    said(stderr, &text, end);
}

// Some lines were not understood.
pub fn misunderstood(stderr: &impl Print, desk: Desk, lines: u64) {
    if desk.unreadable == 0 {
        return;
    }
    let mut text = [0u8; ROOM];
    let end = reports::not_understood(&mut text, 0, desk.unreadable, lines, desk.first_unreadable);
    said(stderr, &text, end);
}
