// The driver state of a case: whatever its bytes say, valid or not.
use crate::number::{flag, further, number, small};
use can::{CONTROLLERS, OBJECTS, State};
use can_state::settings::Settings;
use core_places::controller::Controller;
use core_places::errors::Errors;
use core_places::mailbox::Mailbox;
use core_places::owner::Owner;

// Bytes of the parts of a state: whether it is initialised and the two counts, then the places.
const HEAD: usize = 9;

const CONTROLLER: usize = 12;

const OBJECT: usize = 13;

const MAILBOX: usize = 3;

const OBJECTS_AT: usize = HEAD + CONTROLLER * CONTROLLERS;

const MAILBOXES_AT: usize = OBJECTS_AT + OBJECT * OBJECTS;

// Bytes of a state.
pub const STATE_BYTES: usize = MAILBOXES_AT + MAILBOX * OBJECTS;

// A controller by the bytes from a position on: its mode, its waiting request and its off-bus mark.
fn controller(bytes: &[u8], at: usize) -> Controller {
    Controller {
        mode: small(bytes, at),
        requested_mode: small(bytes, further(at, 1)),
        bus_off: flag(bytes, further(at, 2)),
    }
}

// Its second mark and its two error counts, which stand behind these.
fn errors(bytes: &[u8], at: usize) -> Errors {
    Errors {
        recovering: flag(bytes, further(at, 3)),
        tx_errors: number(bytes, further(at, 4)),
        rx_errors: number(bytes, further(at, 8)),
    }
}

// The controller, the kind and the pool of an object.
fn owner(bytes: &[u8], at: usize) -> Owner {
    Owner {
        controller: small(bytes, at),
        receiving: flag(bytes, further(at, 1)),
        pool: small(bytes, further(at, 2)),
    }
}

// Its payload, its padding value and its filter, which stand behind these.
fn settings(bytes: &[u8], at: usize) -> Settings {
    Settings {
        payload: small(bytes, further(at, 3)),
        padding: small(bytes, further(at, 4)),
        code: number(bytes, further(at, 5)),
        mask: number(bytes, further(at, 9)),
    }
}

// What waits in an object.
fn mailbox(bytes: &[u8], at: usize) -> Mailbox {
    Mailbox {
        tx_pending: flag(bytes, at),
        tx_done: flag(bytes, further(at, 1)),
        rx_full: flag(bytes, further(at, 2)),
    }
}

// All controllers.
fn with_controllers(bytes: &[u8], state: State) -> State {
    let mut next = state;
    for c in 0..CONTROLLERS {
        let at = HEAD + CONTROLLER * c;
        next.core.controllers.set(c, controller(bytes, at));
        next.core.errors.set(c, errors(bytes, at));
    }
    next
}

// All objects.
fn with_objects(bytes: &[u8], state: State) -> State {
    let mut next = state;
    for h in 0..OBJECTS {
        let at = OBJECTS_AT + OBJECT * h;
        next.core.owners.set(h, owner(bytes, at));
        next.settings.set(h, settings(bytes, at));
        next.core
            .mailboxes
            .set(h, mailbox(bytes, MAILBOXES_AT + MAILBOX * h));
    }
    next
}

pub fn state(bytes: &[u8]) -> State {
    let mut state = can::initial_state();
    state.core.initialised = flag(bytes, 0);
    state.core.controller_count = number(bytes, 1) as usize;
    state.core.object_count = number(bytes, 5) as usize;
    with_objects(bytes, with_controllers(bytes, state))
}
