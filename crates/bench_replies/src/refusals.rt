// Why a call is refused, in words.
ghost use Rattle.std.specs.Prelude.{◌≡◌};
ghost use Rattle.bench_text.specs.Put.{Put};
ghost use Rattle.bench_say.specs.Say.{said};
ghost use Rattle.bench_replies.specs.Refusals.{verdict, refusal_text, too_large};
ghost use Rattle.bench_replies.specs.Places as places;

use bench_say::say::{NUMBERS, say, say_one};
use can::Rejection;
use can_calls::request::Function;
use can_frame::identifier::is_fd;
use can_frame::length::LONGEST_FD;

// CAN_BUSY's reason.
const BUSY: u64 = 36;

// The largest error count.
const ERROR_LIMIT: u32 = 65535;

// `rejected 35: `, `busy 36: `
pub fn verdict(out: &mut [u8], at: usize, reason: Rejection) -> usize
    ensures { Put at (verdict reason) out.old out.new result }
{
    let number = can::reason(reason) as u64;
    if number == BUSY {
        return say(out, at, b"busy %0: ", [number, 0, 0, 0, 0]);
    }
    say(out, at, b"rejected %0: ", [number, 0, 0, 0, 0])
}

// 6: a service that cannot go there from here.
fn other_place(initialised: bool) -> usize
    ensures { result ≡ places.other_place initialised }
{
    if initialised { 5 } else { 2 }
}

fn transition_place(function: Function, other: usize) -> usize
    ensures { result ≡ places.transition_place function other }
{
    match function {
        Function::Init => 3,
        Function::DeInit => other,
        Function::Set => 4,
        Function::Get => other,
        Function::ErrorState => other,
        Function::RxErrors => other,
        Function::TxErrors => other,
        Function::Write => other,
        Function::PollWrite => other,
        Function::PollRead => other,
        Function::PollMode => other,
        Function::PollBusOff => other,
        Function::Sent => other,
        Function::BusOff => other,
        Function::ErrorCounts => other,
        Function::Arrived => other,
        Function::Next => other,
    }
}

// 3: data that does not fit the format or the object.
fn data_place(identifier: u32, length: u32) -> usize
    ensures { result ≡ places.data_place identifier length }
{
    if is_fd(identifier) {
        if LONGEST_FD < length {
            return 7;
        }
        return 8;
    }
    6
}

// 40: a length that no frame of its format has on the wire.
fn wire_place(identifier: u32) -> usize
    ensures { result ≡ places.wire_place identifier }
{
    if is_fd(identifier) { 9 } else { 10 }
}

fn place(reason: Rejection, transition: usize, fit: usize, wire: usize) -> usize
    ensures { result ≡ places.refusal_place reason transition fit wire }
{
    match reason {
        Rejection::ParamHandle => 0,
        Rejection::ParamDataLength => fit,
        Rejection::ParamController => 1,
        Rejection::Uninit => 2,
        Rejection::Transition => transition,
        Rejection::InitFailed => 19,
        Rejection::SheetTooShort => 11,
        Rejection::WrongRamSize => 12,
        Rejection::BadIdentifier => 13,
        Rejection::NotStarted => 14,
        Rejection::ObjectBusy => 15,
        Rejection::BusOff => 16,
        Rejection::NothingToSend => 17,
        Rejection::BadLength => wire,
        Rejection::InvalidState => 18,
        Rejection::ErrorCountTooLarge => 20,
    }
}

// What a reason means, for a call with this identifier and so many bytes.
pub fn refusal(
    out: &mut [u8],
    at: usize,
    reason: Rejection,
    function: Function,
    identifier: u32,
    length: u32,
    initialised: bool,
    numbers: [u64; NUMBERS],
) -> usize
    ensures { Put at (said (refusal_text reason function identifier length initialised) numbers) out.old out.new result }
{
    let texts = b"object %0 is no configured sending object|\
        controller %0 is not configured|\
        the driver is not initialised|\
        the driver is initialised already|\
        controller %0 cannot go from %m to %m|\
        a controller is STARTED|\
        %b, and a classic frame holds at most 8|\
        %b, and an FD frame holds at most 64|\
        %b as an FD frame, and the object's payload is 8|\
        no FD frame on the wire has %b|\
        no classic frame on the wire has %b|\
        the sheet has %w, and a call needs %0|\
        the memory has %b, and the chip's has %0|\
        id %i is not a valid identifier|\
        controller %0 is not STARTED|\
        object %0 holds the frame of line %0|\
        controller %0 is off the bus|\
        object %0 holds no frame that waits to be sent|\
        the driver state is not valid|\
        the configuration is not valid|\
        an error count is too large";
    let transition = transition_place(function, other_place(initialised));
    let fit = data_place(identifier, length);
    let wire = wire_place(identifier);
    say_one(
        out,
        at,
        texts,
        place(reason, transition, fit, wire),
        numbers,
    )
}

// 43: the count that is too large, the first of the two if both are.
pub fn too_large(out: &mut [u8], at: usize, transmit: u32, receive: u32) -> usize
    ensures { Put at (too_large transmit receive) out.old out.new result }
{
    if ERROR_LIMIT < transmit {
        let text = b"transmit count %0, expected at most 65535";
        return say(out, at, text, [transmit as u64, 0, 0, 0, 0]);
    }
    let text = b"receive count %0, expected at most 65535";
    say(out, at, text, [receive as u64, 0, 0, 0, 0])
}
