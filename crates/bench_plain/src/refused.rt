// Why a call is refused, in words.
use crate::book::origin;
use crate::night::Desk;
use crate::{fault, pool};
use bench_replies::refusals;
use bench_say::say::{NUMBERS, one, three, two};
use can::{RAM_SIZE, Rejection, SHEET_SIZE, State};
use can_calls::request::{Function, Request};

// The controller of an object; 0 if there is no such object.
fn controller_of(state: &State, object: u32) -> u64 {
    state.core.owners.at(object as usize).controller as u64
}

// The mode of a controller; 0 if there is no such controller.
fn mode_of(state: &State, controller: u32) -> u64 {
    state.core.controllers.at(controller as usize).mode as u64
}

// The controller that a call names, or that of its object.
fn controller_named(state: &State, request: Request) -> u64 {
    let function = request.function;
    match function {
        Function::Write | Function::Sent => controller_of(state, request.object),
        _ => request.controller as u64,
    }
}

// The numbers of a reason, in the order of its text; line is the one that wrote the frame of the object.
fn numbers(
    reason: Rejection,
    request: Request,
    length: u32,
    state: &State,
    desk: Desk,
    line: u64,
) -> [u64; NUMBERS] {
    let object = request.object as u64;
    match reason {
        Rejection::ParamHandle | Rejection::NothingToSend => one(object),
        Rejection::ObjectBusy => two(object, line),
        Rejection::Transition => three(
            request.controller as u64,
            mode_of(state, request.controller),
            request.number as u64,
        ),
        Rejection::ParamDataLength | Rejection::BadLength => one(length as u64),
        Rejection::SheetTooShort => two(desk.sheet as u64, SHEET_SIZE as u64),
        Rejection::WrongRamSize => two(desk.memory as u64, RAM_SIZE as u64),
        Rejection::BadIdentifier => one(request.identifier as u64),
        _ => one(controller_named(state, request)),
    }
}

fn is_configuration(reason: Rejection) -> bool {
    match reason {
        Rejection::InitFailed => true,
        _ => false,
    }
}

fn is_error_count(reason: Rejection) -> bool {
    match reason {
        Rejection::ErrorCountTooLarge => true,
        _ => false,
    }
}

// `rejected 35: controller 0 is not STARTED`; the state is that before the call, and bytes are those that the call was given.
pub fn call(
    out: &mut [u8],
    at: usize,
    state: &State,
    desk: Desk,
    book: &[u64],
    request: Request,
    length: u32,
    bytes: &[u8],
    reason: Rejection,
) -> usize {
    let end = refusals::verdict(out, at, reason);
    if is_configuration(reason) {
        return fault::told(out, end, bytes);
    }
    if is_error_count(reason) {
        return refusals::too_large(out, end, request.number, request.receive);
    }
    let line = origin(book, request.object);
    if pool::is_told(state, request, reason) {
        return pool::told(out, end, state, request.object, reason, line);
    }
    let numbers = numbers(reason, request, length, state, desk, line);
    let function = request.function;
    let identifier = request.identifier;
    let initialised = state.core.initialised;
    refusals::refusal(
        out,
        end,
        reason,
        function,
        identifier,
        length,
        initialised,
        numbers,
    )
}
