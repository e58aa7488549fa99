// A refused write to an object that shares its pool: told by the pool.
use bench_messages::pools;
use can::{OBJECTS, Rejection, State};
use can_calls::request::{Function, Request};
use core_places::range::limited;

// How many objects are in use.
fn in_use(state: &State) -> usize {
    limited(state.core.object_count, OBJECTS)
}

// Whether object i is a member of a pool.
fn is_member(state: &State, pool: u8, i: usize) -> bool {
    let o = state.core.owners.at(i);
    !o.receiving & (o.pool == pool)
}

// The lowest member of a pool; OBJECTS where it has none.
fn lowest(state: &State, pool: u8) -> usize {
    for i in 0..in_use(state) {
        if is_member(state, pool, i) {
            return i;
        }
    }
    OBJECTS
}

// Whether a pool has a member beside object h.
fn has_other(state: &State, pool: u8, h: usize) -> bool {
    for i in 0..in_use(state) {
        if is_member(state, pool, i) & (i != h) {
            return true;
        }
    }
    false
}

fn is_write(function: Function) -> bool {
    match function {
        Function::Write => true,
        _ => false,
    }
}

// Reasons 2 and 36, which speak of the pool.
fn is_pools(reason: Rejection) -> bool {
    match reason {
        Rejection::ParamHandle | Rejection::ObjectBusy => true,
        _ => false,
    }
}

// Whether an object sends in a pool with another one.
fn shares(state: &State, h: usize) -> bool {
    let pool = state.core.owners.at(h).pool;
    (h < in_use(state)) & is_member(state, pool, h) & has_other(state, pool, h)
}

// Whether such a refusal is told by the pool.
pub fn is_told(state: &State, request: Request, reason: Rejection) -> bool {
    let function = request.function;
    let shared = shares(state, request.object as usize);
    is_write(function) & is_pools(reason) & shared
}

// Why a write to such an object is refused; line is the one that wrote the frame of the object.
pub fn told(
    out: &mut [u8],
    at: usize,
    state: &State,
    object: u32,
    reason: Rejection,
    line: u64,
) -> usize {
    let pool = state.core.owners.at(object as usize).pool;
    match reason {
        Rejection::ParamHandle => {
            let lowest = lowest(state, pool) as u64;
            pools::not_lowest(out, at, object as u64, pool as u64, lowest)
        }
        _ => pools::none_free(out, at, pool as u64, object as u64, line),
    }
}
