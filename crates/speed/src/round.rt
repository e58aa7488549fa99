// One round: sixteen calls, each kind but Init and DeInit, all accepted but the second of two writes to one object.
use can::{State, Verdict};

// How many calls were refused, and how many notifications they wrote.
#[derive(Clone, Copy)]
pub struct Sum {
    pub refused: u64,
    pub notifications: u64,
}

// A state, and the sum of what led there.
#[derive(Clone, Copy)]
pub struct Done {
    pub state: State,
    pub sum: Sum,
}

pub fn nothing() -> Sum {
    Sum {
        refused: 0,
        notifications: 0,
    }
}

pub fn added(a: Sum, b: Sum) -> Sum {
    Sum {
        refused: std::num::wrapping_add_u64(a.refused, b.refused),
        notifications: std::num::wrapping_add_u64(a.notifications, b.notifications),
    }
}

// One more call.
fn counted(sum: Sum, verdict: Verdict, notifications: usize) -> Sum {
    let call = Sum {
        refused: verdict.is_err() as u64,
        notifications: notifications as u64,
    };
    added(sum, call)
}

fn after(sum: Sum, called: can::Called<()>) -> Done {
    let state = called.state;
    let verdict = called.reply;
    let next = counted(sum, verdict, called.notifications);
    Done {
        state: state,
        sum: next,
    }
}

// A write of nine bytes to object 0.
fn written(done: Done, ram: &mut [u8], sheet: &mut [u32], handle: u32) -> Done {
    let before = done.state;
    let sum = done.sum;
    let called = can::write(
        before,
        ram,
        sheet,
        0,
        (handle % 65536) as u16,
        0x40000123,
        b"\x01\x02\x03\x04\x05\x06\x07\x08\x09",
    );
    let state = called.state;
    let reply = called.reply;
    let next = counted(sum, can::verdict(reply), called.notifications);
    Done {
        state: state,
        sum: next,
    }
}

// Controller 0 is asked for a mode, and the mode poll takes the request.
fn moved(done: Done, ram: &[u8], sheet: &mut [u32], mode: u32) -> Done {
    let before = done.state;
    let sum = done.sum;
    let asked = after(sum, can::set_controller_mode(before, sheet, 0, mode));
    let waiting = asked.state;
    let next = asked.sum;
    after(next, can::main_function_mode(waiting, ram, sheet))
}

// The frame of object 0 is sent and confirmed.
fn sent(done: Done, ram: &[u8], sheet: &mut [u32]) -> Done {
    let before = done.state;
    let sum = done.sum;
    let gone = after(sum, can::tx_complete(before, 0));
    let waiting = gone.state;
    let next = gone.sum;
    after(next, can::main_function_write(waiting, ram, sheet))
}

// A frame arrives in object 1 and is read.
fn received(done: Done, ram: &mut [u8], sheet: &mut [u32]) -> Done {
    let before = done.state;
    let sum = done.sum;
    let arrived = can::frame_arrived(before, ram, sheet, 0, 0x120, b"pressure");
    let state = arrived.state;
    let reply = arrived.reply;
    let next = counted(sum, can::verdict(reply), arrived.notifications);
    after(next, can::main_function_read(state, ram, sheet))
}

// The mode of controller 0 is asked.
fn looked(done: Done, sheet: &mut [u32]) -> Done {
    let before = done.state;
    let sum = done.sum;
    let asked = can::get_controller_mode(before, sheet, 0);
    let state = asked.state;
    let reply = asked.reply;
    let next = counted(sum, can::verdict(reply), asked.notifications);
    Done {
        state: state,
        sum: next,
    }
}

// Controller 0 goes off the bus, and the poll stops it.
fn off_bus(done: Done, ram: &[u8], sheet: &mut [u32]) -> Done {
    let before = done.state;
    let sum = done.sum;
    let marked = after(sum, can::bus_off_detected(before, 0));
    let waiting = marked.state;
    let next = marked.sum;
    after(next, can::main_function_bus_off(waiting, ram, sheet))
}

// Started, a frame goes out and is confirmed: 5 calls.
fn outward(done: Done, ram: &mut [u8], sheet: &mut [u32], handle: u32) -> Done {
    let started = moved(done, ram, sheet, 1);
    let waiting = written(started, ram, sheet, handle);
    sent(waiting, ram, sheet)
}

// A frame comes in and is read, and the mode is asked: 3 calls.
fn inward(done: Done, ram: &mut [u8], sheet: &mut [u32]) -> Done {
    let read = received(done, ram, sheet);
    looked(read, sheet)
}

// Two writes to one object, and a stop that cancels the first: 4 calls.
fn cancelled(done: Done, ram: &mut [u8], sheet: &mut [u32], handle: u32) -> Done {
    let waiting = written(done, ram, sheet, handle);
    let busy = written(waiting, ram, sheet, handle);
    moved(busy, ram, sheet, 2)
}

// Started again, and off the bus: 4 calls.
fn taken(done: Done, ram: &[u8], sheet: &mut [u32]) -> Done {
    let started = moved(done, ram, sheet, 1);
    off_bus(started, ram, sheet)
}

// The first half of a round.
fn calm(done: Done, ram: &mut [u8], sheet: &mut [u32], handle: u32) -> Done {
    let confirmed = outward(done, ram, sheet, handle);
    inward(confirmed, ram, sheet)
}

// The second half.
fn rough(done: Done, ram: &mut [u8], sheet: &mut [u32], handle: u32) -> Done {
    let stopped = cancelled(done, ram, sheet, handle);
    taken(stopped, ram, sheet)
}

// One round, from STOPPED to STOPPED.
pub fn one(state: State, ram: &mut [u8], sheet: &mut [u32], handle: u32) -> Done {
    let start = Done {
        state: state,
        sum: nothing(),
    };
    let half = calm(start, ram, sheet, handle);
    rough(half, ram, sheet, handle)
}
