// The lists of frames that a bus-off took or a stop cancelled, before they were sent, kept for the end of the night.
use crate::book::owner;
use crate::frames::{data, written};
use crate::night::{CANCELLED_AT, Lists, OUT_ROOM, more};
use crate::notifications::Notification;
use bench_messages::frames;
use bench_text::put::has_room;
use can::State;

// The most bytes that an entry takes.
const ENTRY: usize = 512;

// An entry: the line of the poll, the controller, and the whole frame. The state is that before the poll.
fn entry(
    out: &mut [u8],
    at: usize,
    book: &[u64],
    ram: &[u8],
    state: &State,
    n: Notification,
    line: u64,
) -> usize {
    let controller = owner(state, n.place) as u64;
    let mut end = frames::polled(out, at, line, controller);
    end = written(out, end, book, ram, n.place, n.second as u64);
    data(out, end, ram, n.place)
}

// A frame that a bus-off took.
pub fn taken(
    lists: Lists,
    out: &mut [u8],
    book: &[u64],
    ram: &[u8],
    state: &State,
    n: Notification,
    line: u64,
) -> Lists {
    let mut next = lists;
    if !has_room(CANCELLED_AT, lists.taken_at, ENTRY) {
        next.taken_unlisted = more(lists.taken_unlisted);
        return next;
    }
    next.taken_at = entry(out, lists.taken_at, book, ram, state, n, line);
    next
}

// A frame that a stop cancelled.
pub fn cancelled(
    lists: Lists,
    out: &mut [u8],
    book: &[u64],
    ram: &[u8],
    state: &State,
    n: Notification,
    line: u64,
) -> Lists {
    let mut next = lists;
    if !has_room(OUT_ROOM, lists.cancelled_at, ENTRY) {
        next.cancelled_unlisted = more(lists.cancelled_unlisted);
        return next;
    }
    next.cancelled_at = entry(out, lists.cancelled_at, book, ram, state, n, line);
    next
}
