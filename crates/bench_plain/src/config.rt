// The configuration that the driver has, in the words of a script: a line for the controllers and one for each object; and why a version does
// not say it.
use bench_messages::configs;
use bench_replies::refusals;
use can::{OBJECTS, Rejection, State};
use can_config::header::HEADER_SIZE;
use can_config::record::RECORD_SIZE;
use core_places::range::limited;

// How many objects are in use.
fn in_use(state: &State) -> usize {
    limited(state.core.object_count, OBJECTS)
}

// An object as its line in a script. A pool is said where it is not the object's own number.
fn object(out: &mut [u8], at: usize, state: &State, h: usize) -> usize {
    let o = state.core.owners.at(h);
    let s = state.settings.at(h);
    let controller = o.controller as u64;
    let payload = s.payload as u64;
    if o.receiving {
        return configs::receiving(out, at, controller, payload, s.code as u64, s.mask as u64);
    }
    let padding = s.padding as u64;
    let pool = o.pool as usize;
    if pool == h {
        return configs::sending(out, at, controller, payload, padding);
    }
    configs::pooled(out, at, controller, payload, padding, pool as u64)
}

// All of it.
pub fn shown(out: &mut [u8], at: usize, state: &State) -> usize {
    let mut end = configs::controllers(out, at, state.core.controller_count as u64);
    for h in 0..in_use(state) {
        end = object(out, end, state, h);
    }
    end
}

// Tells of the first object that is in a pool that is not its own number, where there is one.
fn in_a_pool(out: &mut [u8], at: usize, state: &State) -> usize {
    for h in 0..in_use(state) {
        let o = state.core.owners.at(h);
        if !o.receiving & (o.pool as usize != h) {
            return configs::in_a_pool(out, at, h as u64, o.pool as u64);
        }
    }
    at
}

// 9: there is no such version, there is no configuration yet, or version 1 is to say a pool.
fn cannot_say(out: &mut [u8], at: usize, state: &State, version: u32) -> usize {
    if (version != 1) & (version != 2) {
        return configs::unknown_version(out, at, version as u64);
    }
    if !state.core.initialised {
        return configs::not_initialised(out, at);
    }
    in_a_pool(out, at, state)
}

// Why nothing was written.
pub fn refused(
    out: &mut [u8],
    at: usize,
    state: &State,
    version: u32,
    room: u32,
    reason: Rejection,
) -> usize {
    let end = refusals::verdict(out, at, reason);
    match reason {
        Rejection::SheetTooShort => {
            let count = limited(state.core.object_count, OBJECTS);
            let size = HEADER_SIZE + RECORD_SIZE * count;
            configs::short_room(out, end, room as u64, size as u64)
        }
        _ => cannot_say(out, end, state, version),
    }
}
