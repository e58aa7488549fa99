// Frames in words.
ghost use Rattle.bench_text.specs.Put.{Put};
ghost use Rattle.bench_messages.specs.Frames as frames;

use bench_say::form::hex_or_none;
use bench_say::say::say;
use bench_text::put::put;

// The frame of a sending object, and the line that wrote it.
pub fn written(
    out: &mut [u8],
    at: usize,
    object: u64,
    handle: u64,
    identifier: u64,
    line: u64,
) -> usize
    ensures { Put at (frames.written object handle identifier line) out.old out.new result }
{
    say(
        out,
        at,
        b"object %2  handle %5  id %Iwritten at line %l",
        [object, handle, identifier, line, 0],
    )
}

// The line of the sent event, if there was one.
pub fn sent(out: &mut [u8], at: usize, done: bool, line: u64) -> usize
    ensures { Put at (frames.sent done line) out.old out.new result }
{
    if done {
        return say(out, at, b"sent at line %l", [line, 0, 0, 0, 0]);
    }
    say(out, at, b"not sent              ", [line, 0, 0, 0, 0])
}

// The poll that took or cancelled a frame.
pub fn polled(out: &mut [u8], at: usize, line: u64, controller: u64) -> usize
    ensures { Put at (frames.polled line controller) out.old out.new result }
{
    say(
        out,
        at,
        b"  poll at line %6  controller %0  ",
        [line, controller, 0, 0, 0],
    )
}

// A frame that still waits, and whether its controller is off the bus.
pub fn waiting(out: &mut [u8], at: usize, controller: u64, off: bool) -> usize
    ensures { Put at (frames.waiting controller off) out.old out.new result }
{
    if off {
        return say(
            out,
            at,
            b"  controller %0, off the bus  ",
            [controller, 0, 0, 0, 0],
        );
    }
    say(
        out,
        at,
        b"  controller %0               ",
        [controller, 0, 0, 0, 0],
    )
}

// What an object's bytes say before its data.
pub fn head(out: &mut [u8], at: usize, identifier: u64, wire: u64, dlc: u64, handle: u64) -> usize
    ensures { Put at (frames.head identifier wire dlc handle) out.old out.new result }
{
    let text = b"          identifier word %H, wire length %0, DLC %0, handle %0\n          data ";
    say(out, at, text, [identifier, wire, dlc, handle, 0])
}

// The data of a frame, to the end of the line.
pub fn data(out: &mut [u8], at: usize, bytes: &[u8]) -> usize
    ensures { Put at (frames.data_of bytes.now) out.old out.new result }
{
    let word = put(out, at, b"data ");
    let end = hex_or_none(out, word, bytes);
    put(out, end, b"\n")
}
