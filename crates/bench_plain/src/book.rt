// What the bench keeps of the frames of a night, as numbers in one lent array: for each object the line that wrote or brought its frame and
// the line of its sent event, and for each controller what became of its frames.
use can::{CONTROLLERS, OBJECTS, State};

// What frames are counted as: accepted writes and what became of them, then accepted arrivals and what became of them. Waiting and unread
// frames are counted when the night ends.
pub const WRITTEN: usize = 0;

pub const CONFIRMED: usize = 1;

pub const CANCELLED: usize = 2;

pub const TAKEN: usize = 3;

pub const WAITING: usize = 4;

pub const ARRIVED: usize = 5;

pub const READ: usize = 6;

pub const UNREAD: usize = 7;

pub const DROPPED: usize = 8;

pub const LOST: usize = 9;

pub const UNWANTED: usize = 10;

const COUNTS: usize = 11;

// Where the lines of sent events begin, where the counts do, and where it stands how many controllers there were at most.
const SENT_AT: usize = OBJECTS;

const COUNTS_AT: usize = 2 * OBJECTS;

const CONTROLLERS_AT: usize = COUNTS_AT + COUNTS * CONTROLLERS;

pub const ROOM: usize = CONTROLLERS_AT + 1;

fn get(book: &[u64], i: usize) -> u64 {
    if i < book.len() { book[i] } else { 0 }
}

fn set(book: &mut [u64], i: usize, n: u64) {
    if book.len() <= i {
        return;
    }
    book[i] = n;
}

// The line that wrote or brought the frame of an object; 0 if there is no such object.
pub fn origin(book: &[u64], object: u32) -> u64 {
    let h = object as usize;
    if h < OBJECTS { get(book, h) } else { 0 }
}

// The line of the sent event of an object's frame.
pub fn sent_at(book: &[u64], object: u32) -> u64 {
    let h = object as usize;
    if h < OBJECTS {
        get(book, h + SENT_AT)
    } else {
        0
    }
}

// The present line as the one that wrote or brought the frame of an object.
pub fn set_origin(book: &mut [u64], object: u32, line: u64) {
    let h = object as usize;
    if OBJECTS <= h {
        return;
    }
    set(book, h, line);
}

// The present line as that of the sent event of an object.
pub fn set_sent(book: &mut [u64], object: u32, line: u64) {
    let h = object as usize;
    if OBJECTS <= h {
        return;
    }
    set(book, h + SENT_AT, line);
}

// Where a count of a controller stands; behind the end if there is no such controller.
fn place(controller: usize, what: usize) -> usize {
    if CONTROLLERS <= controller {
        return ROOM;
    }
    if COUNTS <= what {
        return ROOM;
    }
    COUNTS_AT + COUNTS * controller + what
}

// One frame of a controller more.
pub fn count(book: &mut [u64], controller: usize, what: usize) {
    let at = place(controller, what);
    let n = std::num::wrapping_add_u64(get(book, at), 1);
    set(book, at, n);
}

// How many frames of a controller were counted.
pub fn counted(book: &[u64], controller: usize, what: usize) -> u64 {
    get(book, place(controller, what))
}

// How many frames were counted, of all controllers.
pub fn total(book: &[u64], what: usize) -> u64 {
    let mut sum: u64 = 0;
    for c in 0..CONTROLLERS {
        sum = std::num::wrapping_add_u64(sum, counted(book, c, what));
    }
    sum
}

// How many controllers there were at most.
pub fn controllers(book: &[u64]) -> u64 {
    get(book, CONTROLLERS_AT)
}

pub fn set_controllers(book: &mut [u64], count: u64) {
    if count <= controllers(book) {
        return;
    }
    set(book, CONTROLLERS_AT, count);
}

// The controller of an object; one too large if there is no such object.
pub fn owner(state: &State, object: u32) -> usize {
    let h = object as usize;
    if h < OBJECTS {
        state.core.owners.at(h).controller as usize
    } else {
        CONTROLLERS
    }
}

// One frame more, where a flag says so.
fn count_if(book: &mut [u64], flag: bool, controller: usize, what: usize) {
    if flag {
        count(book, controller, what);
    }
}

// Counts the frames that wait in an object, or that nobody has read, when the night ends.
pub fn count_left_over(book: &mut [u64], state: &State) {
    for h in 0..OBJECTS {
        let c = state.core.owners.at(h).controller as usize;
        let m = state.core.mailboxes.at(h);
        count_if(book, m.tx_pending, c, WAITING);
        count_if(book, m.rx_full, c, UNREAD);
    }
}

// Counts the frames that a DeInit drops: all that nobody has read.
pub fn count_dropped(book: &mut [u64], state: &State) {
    for h in 0..OBJECTS {
        let c = state.core.owners.at(h).controller as usize;
        count_if(book, state.core.mailboxes.at(h).rx_full, c, DROPPED);
    }
}
