// The plain style: each line in words.
use crate::frames::identifier_in;
use crate::night::Desk;
use crate::{config, object, refused, state, suspect};
use bench_messages::{configs, lines, troubles};
use bench_replies::{answers, calls};
use bench_say::form::{hex_or_none, to_column};
use bench_script::name::Name;
use bench_text::put::put;
use bench_words::reading::Trouble;
use can::{ConfigReply, State};
use can_calls::answer::Answer;
use can_calls::perform::Played;
use can_calls::request::{Function, Request};

// The column at which answers begin.
const ANSWER: usize = 66;

// Whether a controller is off the bus.
fn is_off(state: &State, controller: u32) -> bool {
    state.core.controllers.at(controller as usize).bus_off
}

fn is_nobody(answer: Answer) -> bool {
    match answer {
        Answer::Nobody => true,
        _ => false,
    }
}

// Whether a call may take its controller off the bus.
fn counts_errors(function: Function) -> bool {
    match function {
        Function::ErrorCounts => true,
        _ => false,
    }
}

// The identifier of the frame that is sent next.
fn identified(out: &mut [u8], at: usize, answer: Answer, ram: &[u8]) -> usize {
    match answer {
        Answer::SendsNext(h) => answers::its_identifier(out, at, identifier_in(ram, h)),
        _ => at,
    }
}

// What an accepted call answers; the state is that after it, and the memory that lent to it. Where nobody sends since the controller is off
// the bus, and where error counts take it off the bus, that is told.
fn accepted(
    out: &mut [u8],
    at: usize,
    request: Request,
    answer: Answer,
    next: &State,
    told: usize,
    ram: &[u8],
) -> usize {
    if is_nobody(answer) & is_off(next, request.controller) {
        return answers::off_the_bus(out, at, request.controller as u64);
    }
    let function = request.function;
    if counts_errors(function) & is_off(next, request.controller) {
        return answers::counted_off(out, at, request.controller as u64);
    }
    let controllers = next.core.controller_count as u64;
    let objects = next.core.object_count as u64;
    let end = answers::answer(out, at, answer, function, told, controllers, objects);
    identified(out, end, answer, ram)
}

// What came of a call; the state is that before it.
fn replied(
    out: &mut [u8],
    at: usize,
    state: &State,
    desk: Desk,
    book: &[u64],
    request: Request,
    length: u32,
    bytes: &[u8],
    played: &Played,
    ram: &[u8],
) -> usize {
    match played.verdict {
        Ok(()) => accepted(
            out,
            at,
            request,
            played.answer,
            &played.state,
            played.notifications,
            ram,
        ),
        Err(reason) => refused::call(out, at, state, desk, book, request, length, bytes, reason),
    }
}

// A call with its answer; bytes are those that it was given, and ram the memory lent to it.
pub fn call(
    out: &mut [u8],
    at: usize,
    state: &State,
    desk: Desk,
    book: &[u64],
    request: Request,
    length: u32,
    bytes: &[u8],
    played: &Played,
    ram: &[u8],
) -> usize {
    let mut end = lines::number(out, at, desk.line);
    end = calls::call(out, end, request, length);
    end = to_column(out, end, at, ANSWER);
    end = replied(
        out, end, state, desk, book, request, length, bytes, played, ram,
    );
    put(out, end, b"\n")
}

// The configuration written in a version, shown in words under it; or why it was not.
pub fn config(
    out: &mut [u8],
    at: usize,
    line: u64,
    state: &State,
    version: u32,
    room: u32,
    reply: ConfigReply,
) -> usize {
    let mut end = configs::asked(out, at, line, version as u64, room as u64);
    end = to_column(out, end, at, ANSWER);
    match reply {
        Ok(size) => {
            end = configs::written(out, end, size as u64);
            config::shown(out, end, state)
        }
        Err(reason) => config::refused(out, end, state, version, room, reason),
    }
}

// Data of an object.
pub fn data(out: &mut [u8], at: usize, line: u64, object: u32, data: &[u8]) -> usize {
    let mut end = lines::data(out, at, line, object as u64);
    end = to_column(out, end, at, ANSWER);
    end = hex_or_none(out, end, data);
    put(out, end, b"\n")
}

// All bytes of an object.
pub fn show(out: &mut [u8], at: usize, line: u64, object: u32, bytes: &[u8]) -> usize {
    let mut end = lines::show(out, at, line, object as u64);
    if bytes.len() == 0 {
        end = to_column(out, end, at, ANSWER);
        return lines::no_object(out, end);
    }
    end = put(out, end, b"\n");
    object::shown(out, end, bytes)
}

// The driver state.
pub fn state(out: &mut [u8], at: usize, line: u64, state: &State) -> usize {
    let mut end = lines::state(out, at, line);
    end = to_column(out, end, at, ANSWER);
    end = state::counts(out, end, state);
    end = put(out, end, b"\n");
    end = state::controllers(out, end, state);
    state::objects(out, end, state)
}

// What is wrong with which word, and what may have been meant.
fn wrong(out: &mut [u8], at: usize, trouble: Trouble, name: Option<Name>, line: &[u8]) -> usize {
    let mut end = troubles::trouble(out, at, trouble);
    end = suspect::shown(out, end, trouble, name, line);
    suspect::guessed(out, end, line)
}

// A line that can't be read: its number, what is wrong with which word, and what was expected.
pub fn unreadable(
    out: &mut [u8],
    at: usize,
    number: u64,
    trouble: Trouble,
    name: Option<Name>,
    line: &[u8],
) -> usize {
    let mut end = lines::not_understood(out, at, number);
    end = wrong(out, end, trouble, name, line);
    end = lines::but_expected(out, end);
    end = troubles::expected(out, end, trouble, name);
    put(out, end, b"\n")
}
