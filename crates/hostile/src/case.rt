// One case: a state, a call, and the lengths of the sheet and the memory that it is lent.
//
//     initialised 1 · controller_count 4 · object_count 4
//     4 controllers of: mode 1 · requested_mode 1 · bus_off 1 · recovering 1 · transmit count 4 · receive count 4
//     32 objects of: controller 1 · receiving 1 · pool 1 · payload 1 · padding 1 · code 4 · mask 4
//     32 mailboxes of: tx_pending 1 · tx_done 1 · rx_full 1
//     kind of the call 1 · a 4 · b 4 · c 4 · words of the sheet 4 · bytes of the memory 4
//     the rest: the call's bytes (a configuration, or the data of a frame)
//
// a is the controller or the object, b the mode asked for, the handle or the transmit count, c the identifier or the receive count.
use crate::number::{further, number, small};
use crate::state::{STATE_BYTES, state};
use can::State;
use can_calls::request::{Function, Request};

// Bytes of a case before those of its call.
pub const CASE_BYTES: usize = STATE_BYTES + 21;

#[derive(Clone, Copy)]
pub struct Case {
    pub state: State,
    pub request: Request,
    pub sheet: usize,
    pub memory: usize,
}

// The function of a kind: the services, the polls, the events, who sends next, the error counts and what is asked of them.
fn function_of(kind: u8) -> Function {
    match kind {
        0 => Function::Init,
        1 => Function::DeInit,
        2 => Function::Set,
        3 => Function::Get,
        4 => Function::Write,
        5 => Function::PollWrite,
        6 => Function::PollRead,
        7 => Function::PollMode,
        8 => Function::PollBusOff,
        9 => Function::Sent,
        10 => Function::BusOff,
        11 => Function::Arrived,
        13 => Function::ErrorCounts,
        14 => Function::ErrorState,
        15 => Function::RxErrors,
        16 => Function::TxErrors,
        _ => Function::Next,
    }
}

fn read_request(bytes: &[u8], at: usize) -> Request {
    let function = function_of(small(bytes, at));
    let a = number(bytes, further(at, 1));
    let b = number(bytes, further(at, 5));
    let c = number(bytes, further(at, 9));
    Request {
        function: function,
        controller: a,
        object: a,
        number: b,
        receive: c,
        identifier: c,
    }
}

pub fn read_case(bytes: &[u8]) -> Case {
    let state = state(bytes);
    let request = read_request(bytes, STATE_BYTES);
    let sheet = number(bytes, STATE_BYTES + 13) as usize;
    let memory = number(bytes, STATE_BYTES + 17) as usize;
    Case {
        state: state,
        request: request,
        sheet: sheet,
        memory: memory,
    }
}
