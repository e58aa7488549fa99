// A call of the driver as a value.
ghost use Rattle.std.specs.Prelude.{◌≡◌};
ghost use Rattle.can_calls.specs.Request as requests;

// The function of the driver.
#[derive(Clone, Copy)]
pub enum Function {
    Init,
    DeInit,
    Set,
    Get,
    ErrorState,
    RxErrors,
    TxErrors,
    Write,
    PollWrite,
    PollRead,
    PollMode,
    PollBusOff,
    Sent,
    BusOff,
    ErrorCounts,
    Arrived,
    Next,
}

// What the call names: its controller or its object; a number, which is the handle of a frame, the mode asked for or the transmit count; the
// receive count, which goes with a transmit count; and the identifier. What a function does not take is not looked at. The bytes of a
// configuration or a frame come beside it.
#[derive(Clone, Copy)]
pub struct Request {
    pub function: Function,
    pub controller: u32,
    pub object: u32,
    pub number: u32,
    pub receive: u32,
    pub identifier: u32,
}

// Whether the call is the bus-off poll: the frames that it cancels are taken by a bus-off.
pub fn is_bus_off_poll(request: Request) -> bool
    ensures { result ≡ requests.is_bus_off_poll request.function }
{
    let function = request.function;
    match function {
        Function::PollBusOff => true,
        _ => false,
    }
}
