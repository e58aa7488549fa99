// The driver state in words.
use bench_messages::states;
use bench_text::put::put;
use can::State;
use can_state::settings::Settings;
use core_places::controller::Controller;
use core_places::errors::{Errors, error_state, errors_none};
use core_places::mailbox::Mailbox;
use core_places::owner::Owner;
use core_places::range::limited;

// Whether the driver is initialised, and how much is configured.
pub fn counts(out: &mut [u8], at: usize, state: &State) -> usize {
    let controllers = state.core.controller_count as u64;
    states::counts(
        out,
        at,
        state.core.initialised,
        controllers,
        state.core.object_count as u64,
    )
}

// What a controller remembers of errors, where there is something.
fn errors(out: &mut [u8], at: usize, k: Controller, e: Errors) -> usize {
    if errors_none(e) {
        return at;
    }
    states::errors(
        out,
        at,
        k.bus_off,
        e.recovering,
        error_state(k, e) as u64,
        e.tx_errors as u64,
        e.rx_errors as u64,
    )
}

fn controller(out: &mut [u8], at: usize, c: u64, k: Controller, e: Errors) -> usize {
    let mut end = states::controller(
        out,
        at,
        c,
        k.mode as u64,
        k.requested_mode as u64,
        k.bus_off,
    );
    end = errors(out, end, k, e);
    put(out, end, b"\n")
}

// What is configured of an object, as the configuration in words has it.
fn configured(out: &mut [u8], at: usize, h: u64, o: Owner, s: Settings) -> usize {
    let controller = o.controller as u64;
    let payload = s.payload as u64;
    if o.receiving {
        return states::receiving(
            out,
            at,
            h,
            controller,
            payload,
            s.code as u64,
            s.mask as u64,
        );
    }
    states::sending(
        out,
        at,
        h,
        controller,
        payload,
        s.padding as u64,
        o.pool as u64,
    )
}

// An object, and what it holds.
fn object(out: &mut [u8], at: usize, h: u64, o: Owner, m: Mailbox, s: Settings) -> usize {
    let end = configured(out, at, h, o, s);
    if o.receiving {
        return states::to_read(out, end, m.rx_full);
    }
    states::to_send(out, end, m.tx_pending, m.tx_done)
}

// Each configured controller.
pub fn controllers(out: &mut [u8], at: usize, state: &State) -> usize {
    let core = &state.core;
    let mut end = at;
    for c in 0..limited(core.controller_count, can::CONTROLLERS) {
        end = controller(
            out,
            end,
            c as u64,
            core.controllers.at(c),
            core.errors.at(c),
        );
    }
    end
}

// Each configured object.
pub fn objects(out: &mut [u8], at: usize, state: &State) -> usize {
    let core = &state.core;
    let mut end = at;
    for h in 0..limited(core.object_count, can::OBJECTS) {
        end = object(
            out,
            end,
            h as u64,
            core.owners.at(h),
            core.mailboxes.at(h),
            state.settings.at(h),
        );
    }
    end
}
