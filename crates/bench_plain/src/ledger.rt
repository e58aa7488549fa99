// What a call leaves in the book of a night.
use crate::book;
use crate::book::{count, count_dropped, owner, set_controllers, set_origin, set_sent};
use can::State;
use can_calls::answer::Answer;
use can_calls::request::{Function, Request};

// An accepted write in the book: whose it is, and its line.
fn note_written(book: &mut [u64], state: &State, object: u32, line: u64) {
    set_origin(book, object, line);
    count(book, owner(state, object), book::WRITTEN);
}

// An accepted arrival, and what became of it.
fn note_arrived(book: &mut [u64], controller: u32, fate: usize) {
    let c = controller as usize;
    count(book, c, book::ARRIVED);
    count(book, c, fate);
}

// A stored arrival: its frame is counted when somebody reads it, or at the end.
fn note_stored(book: &mut [u64], controller: u32, object: u32, line: u64) {
    set_origin(book, object, line);
    count(book, controller as usize, book::ARRIVED);
}

// What a call answers, in the book.
pub fn note_answer(book: &mut [u64], state: &State, request: Request, answer: Answer, line: u64) {
    match answer {
        Answer::TakenBy(h) => note_written(book, state, h, line),
        Answer::Stored(h) => note_stored(book, request.controller, h, line),
        Answer::Lost => note_arrived(book, request.controller, book::LOST),
        Answer::Unwanted => note_arrived(book, request.controller, book::UNWANTED),
        _ => {}
    }
}

// A DeInit that is accepted drops all frames that nobody has read. One that is refused leaves the driver initialised.
fn note_dropped(book: &mut [u64], before: &State, initialised: bool) {
    if initialised {
        return;
    }
    count_dropped(book, before);
}

// A sent event that is accepted.
fn note_sent(book: &mut [u64], object: u32, line: u64, accepted: bool) {
    if !accepted {
        return;
    }
    set_sent(book, object, line);
}

// A sent event, an Init and a DeInit.
pub fn note_call(
    book: &mut [u64],
    before: &State,
    next: &State,
    request: Request,
    line: u64,
    accepted: bool,
) {
    let function = request.function;
    match function {
        Function::Sent => note_sent(book, request.object, line, accepted),
        Function::Init => set_controllers(book, next.core.controller_count as u64),
        Function::DeInit => note_dropped(book, before, next.core.initialised),
        _ => {}
    }
}
