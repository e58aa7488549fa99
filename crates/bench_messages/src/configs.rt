// The configuration that a driver has, in the words of a script.
ghost use Rattle.bench_text.specs.Put.{Put};
ghost use Rattle.bench_messages.specs.Configs as configs;

use bench_say::say::say;

// What a line asks for, and how many bytes were written.
pub fn asked(out: &mut [u8], at: usize, line: u64, version: u64, room: u64) -> usize
    ensures { Put at (configs.asked line version room) out.old out.new result }
{
    let text = b"%6  config in version %0, room for %b";
    say(out, at, text, [line, version, room, 0, 0])
}

pub fn written(out: &mut [u8], at: usize, bytes: u64) -> usize
    ensures { Put at (configs.written bytes) out.old out.new result }
{
    let text = b"accepted: %b\n";
    say(out, at, text, [bytes, 0, 0, 0, 0])
}

// The lines of it: the controllers, and an object that sends, that names its pool, or that receives.
pub fn controllers(out: &mut [u8], at: usize, count: u64) -> usize
    ensures { Put at (configs.controllers count) out.old out.new result }
{
    let text = b"          controllers %0\n";
    say(out, at, text, [count, 0, 0, 0, 0])
}

pub fn sending(out: &mut [u8], at: usize, controller: u64, payload: u64, padding: u64) -> usize
    ensures { Put at (configs.sending controller payload padding) out.old out.new result }
{
    let text = b"          object send controller %0 payload %0 padding %h\n";
    say(out, at, text, [controller, payload, padding, 0, 0])
}

pub fn pooled(
    out: &mut [u8],
    at: usize,
    controller: u64,
    payload: u64,
    padding: u64,
    pool: u64,
) -> usize
    ensures { Put at (configs.pooled controller payload padding pool) out.old out.new result }
{
    let text = b"          object send controller %0 payload %0 padding %h pool %0\n";
    say(out, at, text, [controller, payload, padding, pool, 0])
}

pub fn receiving(
    out: &mut [u8],
    at: usize,
    controller: u64,
    payload: u64,
    code: u64,
    mask: u64,
) -> usize
    ensures { Put at (configs.receiving controller payload code mask) out.old out.new result }
{
    let text = b"          object receive controller %0 payload %0 code %x mask %x\n";
    say(out, at, text, [controller, payload, code, mask, 0])
}

// 9: what a version cannot say.
pub fn unknown_version(out: &mut [u8], at: usize, version: u64) -> usize
    ensures { Put at (configs.unknown_version version) out.old out.new result }
{
    let text = b"version %0, expected 1 or 2\n";
    say(out, at, text, [version, 0, 0, 0, 0])
}

pub fn not_initialised(out: &mut [u8], at: usize) -> usize
    ensures { Put at (configs.not_initialised) out.old out.new result }
{
    let text = b"the driver is not initialised\n";
    say(out, at, text, [0, 0, 0, 0, 0])
}

pub fn in_a_pool(out: &mut [u8], at: usize, object: u64, pool: u64) -> usize
    ensures { Put at (configs.in_a_pool object pool) out.old out.new result }
{
    let text = b"object %0 is in pool %0, and version 1 says no pools\n";
    say(out, at, text, [object, pool, 0, 0, 0])
}

// 32: room for fewer bytes than there are.
pub fn short_room(out: &mut [u8], at: usize, room: u64, size: u64) -> usize
    ensures { Put at (configs.short_room room size) out.old out.new result }
{
    let text = b"room for %b, and the configuration has %0\n";
    say(out, at, text, [room, size, 0, 0, 0])
}
