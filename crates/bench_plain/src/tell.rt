// The notifications of a call, one after the other.
use crate::book::{count, owner};
use crate::night::Lists;
use crate::notifications::{CANCELLED, CONFIRMED, Notification, RECEIVED, notification_at};
use crate::{book, listed, notifications};
use can::State;

// How far the output and the lists are filled.
#[derive(Clone, Copy)]
pub struct Told {
    pub at: usize,
    pub lists: Lists,
}

// The poll that the notifications are of: its line, and whether it is the bus-off poll.
#[derive(Clone, Copy)]
pub struct Poll {
    pub line: u64,
    pub by_bus_off: bool,
}

// What a closing notification counts as. A bus-off poll takes the frames that it cancels.
fn counts_as(kind: u32, by_bus_off: bool) -> usize {
    if kind == CONFIRMED {
        return book::CONFIRMED;
    }
    if kind == RECEIVED {
        return book::READ;
    }
    if by_bus_off {
        return book::TAKEN;
    }
    book::CANCELLED
}

// Counts a frame that is confirmed, cancelled, taken or read; the state is that before the poll.
fn counted(book: &mut [u64], state: &State, poll: Poll, n: Notification) {
    let kind = n.kind;
    if (kind != CONFIRMED) & (kind != RECEIVED) & (kind != CANCELLED) {
        return;
    }
    count(
        book,
        owner(state, n.place),
        counts_as(kind, poll.by_bus_off),
    );
}

// A frame that is taken or cancelled is listed, too, for the end of the night.
fn kept(
    lists: Lists,
    out: &mut [u8],
    book: &[u64],
    ram: &[u8],
    state: &State,
    poll: Poll,
    n: Notification,
) -> Lists {
    if n.kind != CANCELLED {
        return lists;
    }
    if poll.by_bus_off {
        return listed::taken(lists, out, book, ram, state, n, poll.line);
    }
    listed::cancelled(lists, out, book, ram, state, n, poll.line)
}

fn one(
    before: Told,
    out: &mut [u8],
    book: &mut [u64],
    ram: &[u8],
    state: &State,
    poll: Poll,
    n: Notification,
) -> Told {
    counted(book, state, poll, n);
    let at = notifications::told(out, before.at, book, ram, n, poll.by_bus_off);
    let lists = kept(before.lists, out, book, ram, state, poll, n);
    Told { at, lists }
}

// The first count notifications on the sheet.
pub fn all(
    before: Told,
    out: &mut [u8],
    book: &mut [u64],
    ram: &[u8],
    state: &State,
    poll: Poll,
    sheet: &[u32],
    count: usize,
) -> Told {
    let mut told = before;
    for i in 0..count {
        told = one(told, out, book, ram, state, poll, notification_at(sheet, i));
    }
    told
}
