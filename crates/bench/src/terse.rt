// The words style: one line for each call, for programs to compare.
use bench_messages::troubles;
use bench_plain::notifications::{Notification, notification_at};
use bench_say::form::{hex_or_none, numbered};
use bench_text::put::{put, put_decimal};
use bench_words::reading::Trouble;
use bench_words::split::between;
use can::{ConfigReply, State, Verdict};
use can_calls::answer::Answer;
use can_calls::request::Function;
use core_places::controller::Controller;
use core_places::errors::Errors;
use core_places::mailbox::Mailbox;
use core_places::range::limited;

// The names of calls, one after the other.
const NAMES: [u8; 147] =
    *b" init  deinit  set  get  errorstate  rxerrors  txerrors  write  poll-write  poll-read  poll-mode  poll-busoff  \
        sent  busoff  errors  arrived  next ";

// Where a name begins and where it ends. Not a table that is searched: it is read for every line of a night.
fn start(function: Function) -> usize {
    match function {
        Function::Init => 0,
        Function::DeInit => 6,
        Function::Set => 14,
        Function::Get => 19,
        Function::ErrorState => 24,
        Function::RxErrors => 36,
        Function::TxErrors => 46,
        Function::Write => 56,
        Function::PollWrite => 63,
        Function::PollRead => 75,
        Function::PollMode => 86,
        Function::PollBusOff => 97,
        Function::Sent => 110,
        Function::BusOff => 116,
        Function::ErrorCounts => 124,
        Function::Arrived => 132,
        Function::Next => 141,
    }
}

fn end(function: Function) -> usize {
    match function {
        Function::Init => 6,
        Function::DeInit => 14,
        Function::Set => 19,
        Function::Get => 24,
        Function::ErrorState => 36,
        Function::RxErrors => 46,
        Function::TxErrors => 56,
        Function::Write => 63,
        Function::PollWrite => 75,
        Function::PollRead => 86,
        Function::PollMode => 97,
        Function::PollBusOff => 110,
        Function::Sent => 116,
        Function::BusOff => 124,
        Function::ErrorCounts => 132,
        Function::Arrived => 141,
        Function::Next => 147,
    }
}

// The name of a call.
fn name(out: &mut [u8], at: usize, function: Function) -> usize {
    put(out, at, between(&NAMES, start(function), end(function)))
}

// The words of answers, one after the other; where each begins and ends.
const ANSWERS: [u8; 30] = *b" - stored: unwanted lost none ";

fn answer_start(answer: Answer) -> usize {
    match answer {
        Answer::Nothing => 0,
        Answer::Mode(_) => 29,
        Answer::ErrorState(_) => 29,
        Answer::RxErrors(_) => 29,
        Answer::TxErrors(_) => 29,
        Answer::TakenBy(_) => 29,
        Answer::Stored(_) => 2,
        Answer::Unwanted => 10,
        Answer::Lost => 19,
        Answer::SendsNext(_) => 29,
        Answer::Nobody => 24,
    }
}

fn answer_end(answer: Answer) -> usize {
    match answer {
        Answer::Nothing => 2,
        Answer::Mode(_) => 30,
        Answer::ErrorState(_) => 30,
        Answer::RxErrors(_) => 30,
        Answer::TxErrors(_) => 30,
        Answer::TakenBy(_) => 30,
        Answer::Stored(_) => 10,
        Answer::Unwanted => 19,
        Answer::Lost => 24,
        Answer::SendsNext(_) => 30,
        Answer::Nobody => 29,
    }
}

// The number of an answer; one above all of them where it has none.
fn answer_number(answer: Answer) -> u64 {
    match answer {
        Answer::Mode(m) => m as u64,
        Answer::ErrorState(n) => n as u64,
        Answer::RxErrors(n) => n as u64,
        Answer::TxErrors(n) => n as u64,
        Answer::TakenBy(h) => h as u64,
        Answer::Stored(h) => h as u64,
        Answer::SendsNext(h) => h as u64,
        _ => NO_NUMBER,
    }
}

const NO_NUMBER: u64 = 0x100000000;

fn answer(out: &mut [u8], at: usize, answer: Answer) -> usize {
    let end = put(
        out,
        at,
        between(&ANSWERS, answer_start(answer), answer_end(answer)),
    );
    let n = answer_number(answer);
    if n == NO_NUMBER {
        return end;
    }
    put_decimal(out, end, n)
}

// One notification: its four words.
fn notification(out: &mut [u8], at: usize, n: Notification) -> usize {
    let mut end = numbered(out, at, b" [", n.kind as u64);
    end = numbered(out, end, b" ", n.place as u64);
    end = numbered(out, end, b" ", n.second as u64);
    end = numbered(out, end, b" ", n.third as u64);
    put(out, end, b"]")
}

// The first count notifications on the sheet.
fn notifications(out: &mut [u8], at: usize, sheet: &[u32], count: usize) -> usize {
    let mut end = at;
    for i in 0..count {
        end = notification(out, end, notification_at(sheet, i));
    }
    end
}

// A call: `LINE NAME CODE REASON ANSWER`, then its notifications.
pub fn call(
    out: &mut [u8],
    at: usize,
    line: u64,
    function: Function,
    verdict: Verdict,
    replied: Answer,
    sheet: &[u32],
    count: usize,
) -> usize {
    let mut end = put_decimal(out, at, line);
    end = name(out, end, function);
    end = put_decimal(out, end, can::return_code(verdict) as u64);
    end = numbered(out, end, b" ", can::verdict_reason(verdict) as u64);
    end = answer(out, end, replied);
    end = notifications(out, end, sheet, count);
    put(out, end, b"\n")
}

// Bytes after a word, as of data and show.
pub fn bytes(out: &mut [u8], at: usize, line: u64, word: &[u8], data: &[u8]) -> usize {
    let mut end = numbered(out, at, b"", line);
    end = put(out, end, word);
    end = hex_or_none(out, end, data);
    put(out, end, b"\n")
}

// What the writer says, and the configuration as it wrote it: `LINE config CODE REASON HEX`.
pub fn config(out: &mut [u8], at: usize, line: u64, reply: ConfigReply, buffer: &[u8]) -> usize {
    let mut end = numbered(out, at, b"", line);
    end = numbered(out, end, b" config ", can::return_code(reply) as u64);
    end = numbered(out, end, b" ", can::verdict_reason(reply) as u64);
    end = put(out, end, b" ");
    end = hex_or_none(out, end, between(buffer, 0, reply.unwrap_or(0)));
    put(out, end, b"\n")
}

// A flag as 0 or 1.
fn flag(out: &mut [u8], at: usize, word: &[u8], set: bool) -> usize {
    numbered(out, at, word, set as u64)
}

fn mode(out: &mut [u8], at: usize, k: Controller) -> usize {
    let mut end = numbered(out, at, b" c:", k.mode as u64);
    end = numbered(out, end, b",", k.requested_mode as u64);
    flag(out, end, b",", k.bus_off)
}

fn errors(out: &mut [u8], at: usize, e: Errors) -> usize {
    let mut end = flag(out, at, b",", e.recovering);
    end = numbered(out, end, b",", e.tx_errors as u64);
    numbered(out, end, b",", e.rx_errors as u64)
}

fn controller(out: &mut [u8], at: usize, k: Controller, e: Errors) -> usize {
    let end = mode(out, at, k);
    errors(out, end, e)
}

fn mailbox(out: &mut [u8], at: usize, m: Mailbox) -> usize {
    let mut end = flag(out, at, b" o:", m.tx_pending);
    end = flag(out, end, b",", m.tx_done);
    flag(out, end, b",", m.rx_full)
}

fn controllers(out: &mut [u8], at: usize, state: &State) -> usize {
    let core = &state.core;
    let mut end = at;
    for c in 0..limited(core.controller_count, can::CONTROLLERS) {
        end = controller(out, end, core.controllers.at(c), core.errors.at(c));
    }
    end
}

fn mailboxes(out: &mut [u8], at: usize, state: &State) -> usize {
    let core = &state.core;
    let mut end = at;
    for h in 0..limited(core.object_count, can::OBJECTS) {
        end = mailbox(out, end, core.mailboxes.at(h));
    }
    end
}

// The state: `LINE state I C N`, then each controller and each object in use.
pub fn state(out: &mut [u8], at: usize, line: u64, state: &State) -> usize {
    let mut end = put_decimal(out, at, line);
    end = flag(out, end, b" state ", state.core.initialised);
    end = numbered(out, end, b" ", state.core.controller_count as u64);
    end = numbered(out, end, b" ", state.core.object_count as u64);
    end = controllers(out, end, state);
    end = mailboxes(out, end, state);
    put(out, end, b"\n")
}

// A line that is not understood: `LINE ? TROUBLE`.
pub fn unreadable(out: &mut [u8], at: usize, line: u64, trouble: Trouble) -> usize {
    let mut end = put_decimal(out, at, line);
    end = put(out, end, b" ? ");
    end = troubles::trouble(out, end, trouble);
    put(out, end, b"\n")
}
