// Calls in words.
ghost use Rattle.std.specs.Prelude.{◌≡◌};
ghost use Rattle.bench_text.specs.Put.{Put};
ghost use Rattle.bench_say.specs.Say.{said};
ghost use Rattle.bench_replies.specs.Calls.{call_text, call_numbers};
ghost use Rattle.bench_replies.specs.Places.{call_place};

use bench_say::say::{NUMBERS, say_one};
use can_calls::request::{Function, Request};

fn place(function: Function) -> usize
    ensures { result ≡ call_place function }
{
    match function {
        Function::Init => 0,
        Function::DeInit => 1,
        Function::Set => 2,
        Function::Get => 3,
        Function::ErrorState => 4,
        Function::RxErrors => 5,
        Function::TxErrors => 6,
        Function::Write => 7,
        Function::PollWrite => 8,
        Function::PollRead => 9,
        Function::PollMode => 10,
        Function::PollBusOff => 11,
        Function::Sent => 12,
        Function::BusOff => 13,
        Function::ErrorCounts => 14,
        Function::Arrived => 15,
        Function::Next => 16,
    }
}

// The numbers of a call, in the order of its text.
fn numbers(request: Request, bytes: u32) -> [u64; NUMBERS]
    ensures { result ≡ call_numbers request bytes }
{
    let function = request.function;
    let length = bytes as u64;
    let controller = request.controller as u64;
    let object = request.object as u64;
    let number = request.number as u64;
    let receive = request.receive as u64;
    let identifier = request.identifier as u64;
    match function {
        Function::Init => [length, 0, 0, 0, 0],
        Function::DeInit => [0, 0, 0, 0, 0],
        Function::Set => [controller, number, 0, 0, 0],
        Function::Get => [controller, 0, 0, 0, 0],
        Function::ErrorState => [controller, 0, 0, 0, 0],
        Function::RxErrors => [controller, 0, 0, 0, 0],
        Function::TxErrors => [controller, 0, 0, 0, 0],
        Function::Write => [object, number, identifier, length, 0],
        Function::PollWrite => [0, 0, 0, 0, 0],
        Function::PollRead => [0, 0, 0, 0, 0],
        Function::PollMode => [0, 0, 0, 0, 0],
        Function::PollBusOff => [0, 0, 0, 0, 0],
        Function::Sent => [object, 0, 0, 0, 0],
        Function::BusOff => [controller, 0, 0, 0, 0],
        Function::ErrorCounts => [controller, number, receive, 0, 0],
        Function::Arrived => [controller, identifier, length, 0, 0],
        Function::Next => [controller, 0, 0, 0, 0],
    }
}

// A call, and how many bytes it brings.
pub fn call(out: &mut [u8], at: usize, request: Request, bytes: u32) -> usize
    ensures { Put at (said (call_text request.function) (call_numbers request bytes)) out.old out.new result }
{
    let texts = b"init with %b|\
        deinit|\
        set controller %0 to %m|\
        get controller %0|\
        error state of controller %0|\
        receive errors of controller %0|\
        transmit errors of controller %0|\
        write object %0, handle %0, id %i, %b|\
        poll write|\
        poll read|\
        poll mode|\
        poll busoff|\
        sent from object %0|\
        busoff of controller %0|\
        errors of controller %0: transmit %0, receive %0|\
        arrived on controller %0, id %i, %b|\
        next on controller %0";
    let function = request.function;
    say_one(out, at, texts, place(function), numbers(request, bytes))
}
