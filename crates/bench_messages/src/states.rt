// The driver state in words.
ghost use Rattle.bench_text.specs.Put.{Put};
ghost use Rattle.bench_messages.specs.States as states;
ghost use Rattle.std.specs.Prelude.{true, false};

use bench_say::say::say;

// Whether the driver is initialised, and how much is configured.
pub fn counts(out: &mut [u8], at: usize, initialised: bool, controllers: u64, objects: u64) -> usize
    ensures { Put at (states.counts initialised controllers objects) out.old out.new result }
{
    if initialised {
        return say(
            out,
            at,
            b"initialised: %c, %o",
            [controllers, objects, 0, 0, 0],
        );
    }
    say(out, at, b"not initialised", [controllers, objects, 0, 0, 0])
}

// A controller that is off the bus.
fn off_the_bus(out: &mut [u8], at: usize, place: u64, mode: u64, asked: u64) -> usize
    ensures { Put at (states.controller place mode asked true) out.old out.new result }
{
    if asked == 0 {
        let text = b"          controller %2  %m, off the bus";
        return say(out, at, text, [place, mode, asked, 0, 0]);
    }
    let text = b"          controller %2  %m, asked for %m, off the bus";
    say(out, at, text, [place, mode, asked, 0, 0])
}

// One that is not.
fn on_the_bus(out: &mut [u8], at: usize, place: u64, mode: u64, asked: u64) -> usize
    ensures { Put at (states.controller place mode asked false) out.old out.new result }
{
    if asked == 0 {
        return say(
            out,
            at,
            b"          controller %2  %m",
            [place, mode, asked, 0, 0],
        );
    }
    let text = b"          controller %2  %m, asked for %m";
    say(out, at, text, [place, mode, asked, 0, 0])
}

// A controller: its mode, the mode that it is asked for, and whether it is off the bus.
pub fn controller(out: &mut [u8], at: usize, place: u64, mode: u64, asked: u64, off: bool) -> usize
    ensures { Put at (states.controller place mode asked off) out.old out.new result }
{
    if off {
        return off_the_bus(out, at, place, mode, asked);
    }
    on_the_bus(out, at, place, mode, asked)
}

// What it remembers of errors: its error state, where it is not told yet, and both counts.
pub fn errors(
    out: &mut [u8],
    at: usize,
    off: bool,
    recovering: bool,
    state: u64,
    tx: u64,
    rx: u64,
) -> usize
    ensures { Put at (states.errors off recovering state tx rx) out.old out.new result }
{
    if off {
        let text = b": transmit count %0, receive count %0";
        return say(out, at, text, [tx, rx, 0, 0, 0]);
    }
    if recovering {
        let text = b", %e until STARTED: transmit count %0, receive count %0";
        return say(out, at, text, [state, tx, rx, 0, 0]);
    }
    let text = b", %e: transmit count %0, receive count %0";
    say(out, at, text, [state, tx, rx, 0, 0])
}

// An object as the configuration in words has it: one that sends, with its pool where that is not its own number, and one that receives.
pub fn sending(
    out: &mut [u8],
    at: usize,
    object: u64,
    controller: u64,
    payload: u64,
    padding: u64,
    pool: u64,
) -> usize
    ensures { Put at (states.sending object controller payload padding pool) out.old out.new result }
{
    if pool == object {
        let text = b"          object     %2  send controller %0 payload %0 padding %h";
        return say(out, at, text, [object, controller, payload, padding, pool]);
    }
    let text = b"          object     %2  send controller %0 payload %0 padding %h pool %0";
    say(out, at, text, [object, controller, payload, padding, pool])
}

pub fn receiving(
    out: &mut [u8],
    at: usize,
    object: u64,
    controller: u64,
    payload: u64,
    code: u64,
    mask: u64,
) -> usize
    ensures { Put at (states.receiving object controller payload code mask) out.old out.new result }
{
    let text = b"          object     %2  receive controller %0 payload %0 code %x mask %x";
    say(out, at, text, [object, controller, payload, code, mask])
}

// What a sending object holds, and a receiving one.
pub fn to_send(out: &mut [u8], at: usize, pending: bool, done: bool) -> usize
    ensures { Put at (states.to_send pending done) out.old out.new result }
{
    if done {
        return say(out, at, b": sent, not yet confirmed\n", [0, 0, 0, 0, 0]);
    }
    if pending {
        return say(out, at, b": waits to be sent\n", [0, 0, 0, 0, 0]);
    }
    say(out, at, b": free\n", [0, 0, 0, 0, 0])
}

pub fn to_read(out: &mut [u8], at: usize, full: bool) -> usize
    ensures { Put at (states.to_read full) out.old out.new result }
{
    if full {
        return say(out, at, b": full\n", [0, 0, 0, 0, 0]);
    }
    say(out, at, b": empty\n", [0, 0, 0, 0, 0])
}
