// The frames that still wait when a night ends: not sent, or sent and not confirmed.
use crate::book;
use crate::book::total;
use crate::frames::{data, handle_in, sent, written};
use bench_messages::{frames, totals};
use can::{OBJECTS, State};

// The frame of an object, where one waits.
fn one_of(out: &mut [u8], at: usize, state: &State, book: &[u64], ram: &[u8], h: usize) -> usize {
    let m = state.core.mailboxes.at(h);
    if (OBJECTS <= h) | !m.tx_pending {
        return at;
    }
    let object = h as u32;
    let controller = state.core.owners.at(h).controller as usize;
    // No poll has told yet that its controller is off the bus.
    let off = state.core.controllers.at(controller).bus_off;
    let mut end = frames::waiting(out, at, controller as u64, off);
    end = written(out, end, book, ram, object, handle_in(ram, object));
    end = sent(out, end, book, object, m.tx_done);
    data(out, end, ram, object)
}

// All of them, by object.
fn each(out: &mut [u8], at: usize, state: &State, book: &[u64], ram: &[u8]) -> usize {
    let mut end = at;
    for h in 0..OBJECTS {
        end = one_of(out, end, state, book, ram, h);
    }
    end
}

// The list of them, where there is one.
pub fn list(out: &mut [u8], at: usize, state: &State, book: &[u64], ram: &[u8]) -> usize {
    if total(book, book::WAITING) == 0 {
        return at;
    }
    let end = totals::waiting(out, at);
    each(out, end, state, book, ram)
}
