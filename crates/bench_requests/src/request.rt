// What a line of a script asks for.
ghost use Rattle.std.specs.Prelude.{◌≡◌};
ghost use Rattle.bench_requests.specs.Request as requests;

use bench_script::command::Command;
use bench_words::reading::Trouble;
use can_calls::request::{Function, Request};

// The call that a command wants, and how many bytes its line brings for it.
#[derive(Clone, Copy)]
pub struct Wanted {
    pub request: Request,
    pub length: u32,
}

#[derive(Clone, Copy)]
pub enum Asks {
    Call(Wanted),
    // Init with the configuration in words.
    InitInWords,
    // No call of the driver.
    Other,
}

fn call(
    function: Function,
    controller: u32,
    object: u32,
    number: u32,
    identifier: u32,
    length: u32,
) -> Asks
    ensures { result ≡ requests.call (record { function = function; controller = controller; object = object; number = number; receive = 0; identifier = identifier }) length }
{
    let request = Request {
        function,
        controller,
        object,
        number,
        receive: 0,
        identifier,
    };
    Asks::Call(Wanted { request, length })
}

// The two error counts of a controller.
fn counts(controller: u32, transmit: u32, receive: u32) -> Asks
    ensures { result ≡ requests.request_of_command (Command.Errors controller transmit receive) }
{
    let request = Request {
        function: Function::ErrorCounts,
        controller,
        object: 0,
        number: transmit,
        receive,
        identifier: 0,
    };
    Asks::Call(Wanted { request, length: 0 })
}

// Init with so many bytes.
pub fn init(length: u32) -> Wanted
    ensures { result ≡ requests.init length }
{
    let request = Request {
        function: Function::Init,
        controller: 0,
        object: 0,
        number: 0,
        receive: 0,
        identifier: 0,
    };
    Wanted { request, length }
}

// What a function does not take is 0.
fn request_of_command(command: Command) -> Asks
    ensures { result ≡ requests.request_of_command command }
{
    match command {
        Command::Init { length } => Asks::Call(init(length)),
        Command::DeInit => call(Function::DeInit, 0, 0, 0, 0, 0),
        Command::Set { controller, mode } => call(Function::Set, controller, 0, mode, 0, 0),
        Command::Get { controller } => call(Function::Get, controller, 0, 0, 0, 0),
        Command::ErrorState { controller } => call(Function::ErrorState, controller, 0, 0, 0, 0),
        Command::RxErrors { controller } => call(Function::RxErrors, controller, 0, 0, 0, 0),
        Command::TxErrors { controller } => call(Function::TxErrors, controller, 0, 0, 0, 0),
        Command::Write {
            object,
            handle,
            identifier,
            length,
        } => call(Function::Write, 0, object, handle, identifier, length),
        Command::PollWrite => call(Function::PollWrite, 0, 0, 0, 0, 0),
        Command::PollRead => call(Function::PollRead, 0, 0, 0, 0, 0),
        Command::PollMode => call(Function::PollMode, 0, 0, 0, 0, 0),
        Command::PollBusOff => call(Function::PollBusOff, 0, 0, 0, 0, 0),
        Command::Sent { object } => call(Function::Sent, 0, object, 0, 0, 0),
        Command::BusOff { controller } => call(Function::BusOff, controller, 0, 0, 0, 0),
        Command::Errors {
            controller,
            transmit,
            receive,
        } => counts(controller, transmit, receive),
        Command::Arrived {
            controller,
            identifier,
            length,
        } => call(Function::Arrived, controller, 0, 0, identifier, length),
        Command::Next { controller } => call(Function::Next, controller, 0, 0, 0, 0),
        Command::InitInWords => Asks::InitInWords,
        Command::Blank
        | Command::Data { .. }
        | Command::Sheet { .. }
        | Command::Memory { .. }
        | Command::Show { .. }
        | Command::State
        | Command::Config { .. }
        | Command::Controllers { .. }
        | Command::Send { .. }
        | Command::SendInPool { .. }
        | Command::Receive { .. } => Asks::Other,
    }
}

// What a line asks for, by what reading it answers.
pub fn request_of(read: Result<Command, Trouble>) -> Asks
    ensures { result ≡ requests.request_of read }
{
    match read {
        Ok(command) => request_of_command(command),
        Err(_) => Asks::Other,
    }
}
