// Notifications in words, as lines under their call.
use crate::book::origin;
use crate::frames::{data, written};
use bench_messages::notices;
use bench_text::put::put;
use core_layout::notification::WORDS;

// The four words of a notification.
#[derive(Clone, Copy)]
pub struct Notification {
    pub kind: u32,
    pub place: u32,
    pub second: u32,
    pub third: u32,
}

// The notification with this number on the sheet; all zero behind its end.
pub fn notification_at(sheet: &[u32], i: usize) -> Notification {
    if i < sheet.len() / WORDS {
        return Notification {
            kind: sheet[WORDS * i],
            place: sheet[WORDS * i + 1],
            second: sheet[WORDS * i + 2],
            third: sheet[WORDS * i + 3],
        };
    }
    Notification {
        kind: 0,
        place: 0,
        second: 0,
        third: 0,
    }
}

pub const CONFIRMED: u32 = 1;

pub const RECEIVED: u32 = 2;

pub const DEVELOPMENT_ERROR: u32 = 5;

pub const CANCELLED: u32 = 7;

const ERROR_PASSIVE: u32 = 8;

// Whether a notification closes a write.
pub fn closes(n: Notification) -> bool {
    (n.kind == CONFIRMED) | (n.kind == CANCELLED)
}

// The frame of an object that is confirmed or cancelled.
fn closed(
    out: &mut [u8],
    at: usize,
    book: &[u64],
    ram: &[u8],
    n: Notification,
    by_bus_off: bool,
) -> usize {
    let mut end = notices::closing(out, at, n.kind, by_bus_off);
    end = written(out, end, book, ram, n.place, n.second as u64);
    data(out, end, ram, n.place)
}

// The frame of an object that was received.
fn received(out: &mut [u8], at: usize, book: &[u64], ram: &[u8], n: Notification) -> usize {
    let line = origin(book, n.place);
    let end = notices::received(out, at, n.place as u64, n.second as u64, line);
    data(out, end, ram, n.place)
}

// A controller that became error passive, with its two counts.
fn error_passive(out: &mut [u8], at: usize, n: Notification) -> usize {
    let controller = n.place as u64;
    notices::error_passive(out, at, controller, n.second as u64, n.third as u64)
}

fn development_error(out: &mut [u8], at: usize, service: u32, error: u32) -> usize {
    let end = notices::error(out, at, error as u64);
    notices::service(out, end, service as u64)
}

// One notification, indented.
pub fn told(
    out: &mut [u8],
    at: usize,
    book: &[u64],
    ram: &[u8],
    n: Notification,
    by_bus_off: bool,
) -> usize {
    let end = put(out, at, b"          ");
    if closes(n) {
        return closed(out, end, book, ram, n, by_bus_off);
    }
    let kind = n.kind;
    match kind {
        RECEIVED => received(out, end, book, ram, n),
        DEVELOPMENT_ERROR => development_error(out, end, n.place, n.second),
        ERROR_PASSIVE => error_passive(out, end, n),
        _ => notices::change(out, end, kind, n.place as u64, n.second as u64),
    }
}
