// Notifications in words.
ghost use Rattle.bench_text.specs.Put.{Put};
ghost use Rattle.bench_say.specs.Say.{said, five};
ghost use Rattle.bench_messages.specs.Notices as notices;

use bench_say::say::say;

// How a write is closed: a frame that was sent is confirmed, by whichever poll; any other a stop cancels, or a bus-off takes.
pub fn closing(out: &mut [u8], at: usize, kind: u32, by_bus_off: bool) -> usize
    ensures { Put at (notices.closing kind by_bus_off) out.old out.new result }
{
    if kind == 1 {
        return say(out, at, b"confirmed          ", [0, 0, 0, 0, 0]);
    }
    if by_bus_off {
        return say(out, at, b"taken by bus-off   ", [0, 0, 0, 0, 0]);
    }
    say(out, at, b"cancelled by stop  ", [0, 0, 0, 0, 0])
}

// A frame that a read poll hands over.
pub fn received(out: &mut [u8], at: usize, object: u64, identifier: u64, line: u64) -> usize
    ensures { Put at (notices.received object identifier line) out.old out.new result }
{
    let text = b"received           object %2  id %Iarrived at line %l";
    say(out, at, text, [object, identifier, line, 0, 0])
}

// A development error by AUTOSAR's name.
pub fn error(out: &mut [u8], at: usize, number: u64) -> usize
    ensures { Put at (notices.error number) out.old out.new result }
{
    if number == 2 {
        return say(
            out,
            at,
            b"development error %0 CAN_E_PARAM_HANDLE",
            [number, 0, 0, 0, 0],
        );
    }
    if number == 3 {
        return say(
            out,
            at,
            b"development error %0 CAN_E_PARAM_DATA_LENGTH",
            [number, 0, 0, 0, 0],
        );
    }
    if number == 4 {
        return say(
            out,
            at,
            b"development error %0 CAN_E_PARAM_CONTROLLER",
            [number, 0, 0, 0, 0],
        );
    }
    if number == 5 {
        return say(
            out,
            at,
            b"development error %0 CAN_E_UNINIT",
            [number, 0, 0, 0, 0],
        );
    }
    if number == 6 {
        return say(
            out,
            at,
            b"development error %0 CAN_E_TRANSITION",
            [number, 0, 0, 0, 0],
        );
    }
    if number == 9 {
        return say(
            out,
            at,
            b"development error %0 CAN_E_INIT_FAILED",
            [number, 0, 0, 0, 0],
        );
    }
    say(out, at, b"development error %0 ?", [number, 0, 0, 0, 0])
}

// A service that asks something of a controller, by AUTOSAR's name.
fn question(out: &mut [u8], at: usize, number: u64) -> usize
    ensures { Put at (said (notices.question_text number) (five 0 0 0 0 0)) out.old out.new result }
{
    if number == 18 {
        return say(out, at, b" of GetControllerMode\n", [0, 0, 0, 0, 0]);
    }
    if number == 17 {
        let text = b" of GetControllerErrorState\n";
        return say(out, at, text, [0, 0, 0, 0, 0]);
    }
    if number == 48 {
        let text = b" of GetControllerRxErrorCounter\n";
        return say(out, at, text, [0, 0, 0, 0, 0]);
    }
    if number == 49 {
        let text = b" of GetControllerTxErrorCounter\n";
        return say(out, at, text, [0, 0, 0, 0, 0]);
    }
    say(out, at, b" of another service\n", [0, 0, 0, 0, 0])
}

// A service by AUTOSAR's name.
pub fn service(out: &mut [u8], at: usize, number: u64) -> usize
    ensures { Put at (notices.service number) out.old out.new result }
{
    if number == 0 {
        return say(out, at, b" of Init\n", [0, 0, 0, 0, 0]);
    }
    if number == 3 {
        return say(out, at, b" of SetControllerMode\n", [0, 0, 0, 0, 0]);
    }
    if number == 6 {
        return say(out, at, b" of Write\n", [0, 0, 0, 0, 0]);
    }
    if number == 16 {
        return say(out, at, b" of DeInit\n", [0, 0, 0, 0, 0]);
    }
    question(out, at, number)
}

// A change of a controller, or lost data.
pub fn change(out: &mut [u8], at: usize, kind: u32, place: u64, second: u64) -> usize
    ensures { Put at (notices.change kind place second) out.old out.new result }
{
    if kind == 3 {
        return say(
            out,
            at,
            b"controller %0 is now %m\n",
            [place, second, 0, 0, 0],
        );
    }
    if kind == 4 {
        let text = b"controller %0 went off the bus and is now STOPPED\n";
        return say(out, at, text, [place, second, 0, 0, 0]);
    }
    if kind == 6 {
        return say(
            out,
            at,
            b"data lost: object %0 is full\n",
            [place, second, 0, 0, 0],
        );
    }
    say(out, at, b"unknown notification\n", [place, second, 0, 0, 0])
}

// A controller that became error passive.
pub fn error_passive(out: &mut [u8], at: usize, controller: u64, tx: u64, rx: u64) -> usize
    ensures { Put at (notices.error_passive controller tx rx) out.old out.new result }
{
    let text = b"controller %0 is now error passive: transmit count %n, receive count %n\n";
    say(out, at, text, [controller, tx, rx, 0, 0])
}
