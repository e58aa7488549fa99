// The bench between two lines of a night.
use can::{RAM_SIZE, SHEET_SIZE, State};

// The output buffer: what is written out next, then the list of frames that a bus-off took, then that of frames that a stop cancelled.
pub const OUTPUT: usize = 65536;

pub const LIST: usize = 131072;

pub const TAKEN_AT: usize = OUTPUT;

pub const CANCELLED_AT: usize = OUTPUT + LIST;

pub const OUT_ROOM: usize = OUTPUT + LIST + LIST;

// The bench's own part of a night: the style; the line's number; the lengths lent, in words and bytes; how far the output and the lists are
// filled; how many lines could not be read, and the first of them; whether the output could not be written.
#[derive(Clone, Copy)]
pub struct Desk {
    pub plain: bool,
    pub line: u64,
    pub sheet: usize,
    pub memory: usize,
    pub at: usize,
    pub lists: Lists,
    pub unreadable: u64,
    pub first_unreadable: u64,
    pub stuck: bool,
}

// The driver state, and the bench's part.
#[derive(Clone, Copy)]
pub struct Night {
    pub state: State,
    pub desk: Desk,
}

// How far the two lists are filled, and how many frames each had no room for.
#[derive(Clone, Copy)]
pub struct Lists {
    pub taken_at: usize,
    pub taken_unlisted: u64,
    pub cancelled_at: usize,
    pub cancelled_unlisted: u64,
}

fn empty_lists() -> Lists {
    Lists {
        taken_at: TAKEN_AT,
        taken_unlisted: 0,
        cancelled_at: CANCELLED_AT,
        cancelled_unlisted: 0,
    }
}

fn empty_desk(plain: bool) -> Desk {
    let lists = empty_lists();
    Desk {
        plain: plain,
        line: 0,
        sheet: SHEET_SIZE,
        memory: RAM_SIZE,
        at: 0,
        lists: lists,
        unreadable: 0,
        first_unreadable: 0,
        stuck: false,
    }
}

pub fn begun(plain: bool) -> Night {
    let state = can::initial_state();
    let desk = empty_desk(plain);
    Night {
        state: state,
        desk: desk,
    }
}

// One more.
pub fn more(n: u64) -> u64 {
    std::num::wrapping_add_u64(n, 1)
}
