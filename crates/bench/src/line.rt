// One line of a night.
use crate::terse;
use bench_draft::draft::{
    ROOM, TooManyObjects, add_in_pool, add_receiving, add_sending, begin, objects, size,
};
use bench_messages::lines;
use bench_plain::night::{Desk, Night, more};
use bench_plain::object::bytes;
use bench_plain::tell::Told;
use bench_plain::told::in_words;
use bench_plain::{draft, plain};
use bench_requests::request::{Asks, Wanted, init, request_of};
use bench_script::command::{Command, LARGEST_ROOM};
use bench_script::name::name_of;
use bench_words::bytes::MOST_BYTES;
use bench_words::reading::Trouble;
use bench_words::split::word;
use can::State;
use can_calls::perform::{Played, perform};
use can_calls::request::Request;

// The call as one line of words.
fn in_numbers(
    desk: Desk,
    request: Request,
    played: &Played,
    sheet: &[u32],
    out: &mut [u8],
) -> Told {
    let function = request.function;
    let verdict = played.verdict;
    let answer = played.answer;
    let lists = desk.lists;
    let at = terse::call(
        out,
        desk.at,
        desk.line,
        function,
        verdict,
        answer,
        sheet,
        played.notifications,
    );
    Told {
        at: at,
        lists: lists,
    }
}

// A call of the driver, with as much of the memory and the sheet as is lent, and the bytes that it is given.
fn performed(
    state: State,
    desk: Desk,
    request: Request,
    bytes: &[u8],
    memory: &mut [u8],
    sheet: &mut [u32],
) -> Played {
    let lent_bytes = desk.memory.min(memory.len());
    let lent_words = desk.sheet.min(sheet.len());
    perform(
        state,
        &mut memory[..lent_bytes],
        &mut sheet[..lent_words],
        bytes,
        request,
    )
}

// What came of a call, in the night's style.
fn told(
    state: &State,
    desk: Desk,
    wanted: Wanted,
    bytes: &[u8],
    played: &Played,
    memory: &[u8],
    sheet: &[u32],
    out: &mut [u8],
    book: &mut [u64],
) -> Told {
    let request = wanted.request;
    if desk.plain {
        let lent = desk.memory.min(memory.len());
        let ram = &memory[..lent];
        let length = wanted.length;
        return in_words(
            state, desk, request, length, bytes, played, ram, sheet, out, book,
        );
    }
    in_numbers(desk, request, played, sheet, out)
}

// The night after a call.
fn after(desk: Desk, played: Played, told: Told) -> Night {
    let state = played.state;
    let lists = told.lists;
    let mut next = desk;
    next.at = told.at;
    next.lists = lists;
    Night {
        state: state,
        desk: next,
    }
}

// Plays a call with the bytes that it is given, and tells what came of it.
fn call(
    night: Night,
    wanted: Wanted,
    bytes: &[u8],
    memory: &mut [u8],
    sheet: &mut [u32],
    out: &mut [u8],
    book: &mut [u64],
) -> Night {
    let desk = night.desk;
    let before = night.state;
    let played = performed(night.state, desk, wanted.request, bytes, memory, sheet);
    let told = told(
        &before, desk, wanted, bytes, &played, memory, sheet, out, book,
    );
    after(desk, played, told)
}

// A call with the bytes that its line brings.
fn call_of_line(
    night: Night,
    wanted: Wanted,
    bytes: &[u8],
    memory: &mut [u8],
    sheet: &mut [u32],
    out: &mut [u8],
    book: &mut [u64],
) -> Night {
    let count = (wanted.length as usize).min(bytes.len());
    call(night, wanted, &bytes[..count], memory, sheet, out, book)
}

// The bytes of the configuration in words, in plain words only.
fn configuration(night: Night, draft: &[u8], out: &mut [u8]) -> Night {
    let desk = night.desk;
    if !desk.plain {
        return night;
    }
    let state = night.state;
    let mut next = desk;
    next.at = draft::shown(out, desk.at, draft);
    Night {
        state: state,
        desk: next,
    }
}

// Init with the configuration in words, which is shown under it.
fn init_in_words(
    night: Night,
    draft: &[u8],
    memory: &mut [u8],
    sheet: &mut [u32],
    out: &mut [u8],
    book: &mut [u64],
) -> Night {
    let count = size(draft).min(draft.len());
    let wanted = init((count % 0x100000000) as u32);
    let next = call(night, wanted, &draft[..count], memory, sheet, out, book);
    configuration(next, draft, out)
}

fn data(desk: Desk, object: u32, memory: &[u8], out: &mut [u8]) -> usize {
    let lent = desk.memory.min(memory.len());
    let data = can::data_of(&memory[..lent], object);
    if desk.plain {
        return plain::data(out, desk.at, desk.line, object, data);
    }
    terse::bytes(out, desk.at, desk.line, b" data - - ", data)
}

fn show(desk: Desk, object: u32, memory: &[u8], out: &mut [u8]) -> usize {
    let bytes = bytes(memory, object);
    if desk.plain {
        return plain::show(out, desk.at, desk.line, object, bytes);
    }
    terse::bytes(out, desk.at, desk.line, b" show ", bytes)
}

fn state_told(state: &State, desk: Desk, out: &mut [u8]) -> usize {
    if desk.plain {
        return plain::state(out, desk.at, desk.line, state);
    }
    terse::state(out, desk.at, desk.line, state)
}

// What changes the bench alone is told in plain words only.
fn sheet_told(desk: Desk, words: u32, out: &mut [u8]) -> usize {
    if desk.plain {
        return lines::sheet(out, desk.at, desk.line, words as u64);
    }
    desk.at
}

fn memory_told(desk: Desk, bytes: u32, out: &mut [u8]) -> usize {
    if desk.plain {
        return lines::memory(out, desk.at, desk.line, bytes as u64);
    }
    desk.at
}

fn object_told(desk: Desk, number: u8, out: &mut [u8]) -> usize {
    if desk.plain {
        return lines::next_object(out, desk.at, desk.line, number as u64);
    }
    desk.at
}

fn controllers_told(desk: Desk, count: u32, out: &mut [u8]) -> usize {
    if desk.plain {
        return lines::next_controllers(out, desk.at, desk.line, count as u64);
    }
    desk.at
}

// A line that is not understood.
fn unreadable(desk: Desk, trouble: Trouble, line: &[u8], out: &mut [u8]) -> usize {
    if desk.plain {
        let name = name_of(word(line, 0));
        return plain::unreadable(out, desk.at, desk.line, trouble, name, line);
    }
    terse::unreadable(out, desk.at, desk.line, trouble)
}

// Counts it.
fn misunderstood(desk: Desk) -> Desk {
    let mut next = desk;
    next.unreadable = more(desk.unreadable);
    if desk.unreadable == 0 {
        next.first_unreadable = desk.line;
    }
    next
}

// A line that is not understood is told, and counted.
fn not_understood(desk: Desk, trouble: Trouble, line: &[u8], out: &mut [u8]) -> Desk {
    let mut next = misunderstood(desk);
    next.at = unreadable(desk, trouble, line, out);
    next
}

// An object of the configuration in words, where there was room for it.
fn object_added(
    desk: Desk,
    added: Result<(), TooManyObjects>,
    number: u8,
    line: &[u8],
    out: &mut [u8],
) -> Desk {
    if added.is_err() {
        return not_understood(desk, Trouble::TooManyObjects, line, out);
    }
    let mut next = desk;
    next.at = object_told(desk, number, out);
    next
}

fn controllers(desk: Desk, count: u32, draft: &mut [u8; ROOM], out: &mut [u8]) -> Desk {
    begin(draft, count);
    let mut next = desk;
    next.at = controllers_told(desk, count, out);
    next
}

// A line of the configuration in words.
fn configured(
    desk: Desk,
    command: Command,
    line: &[u8],
    draft: &mut [u8; ROOM],
    out: &mut [u8],
) -> Desk {
    let number = objects(draft);
    match command {
        Command::Controllers { count } => controllers(desk, count, draft, out),
        Command::Send {
            controller,
            payload,
            padding,
        } => {
            let added = add_sending(draft, controller, payload, padding);
            object_added(desk, added, number, line, out)
        }
        Command::SendInPool {
            controller,
            payload,
            padding,
            pool,
        } => {
            let added = add_in_pool(draft, controller, payload, padding, pool);
            object_added(desk, added, number, line, out)
        }
        Command::Receive {
            controller,
            payload,
            code,
            mask,
        } => {
            let added = add_receiving(draft, controller, payload, code, mask);
            object_added(desk, added, number, line, out)
        }
        _ => desk,
    }
}

// What a command that looks at the memory, or changes the bench alone, is told as.
fn asked(desk: Desk, command: Command, memory: &[u8], out: &mut [u8]) -> usize {
    match command {
        Command::Data { object } => data(desk, object, memory, out),
        Command::Show { object } => show(desk, object, memory, out),
        Command::Sheet { words } => sheet_told(desk, words, out),
        Command::Memory { bytes } => memory_told(desk, bytes, out),
        _ => desk.at,
    }
}

// What such a command changes.
fn changed(desk: Desk, command: Command) -> Desk {
    let mut next = desk;
    match command {
        Command::Sheet { words } => {
            next.sheet = words as usize;
        }
        Command::Memory { bytes } => {
            next.memory = bytes as usize;
        }
        _ => {}
    }
    next
}

// Whether a command is of the configuration in words.
fn is_configured(command: Command) -> bool {
    matches!(
        command,
        Command::Controllers { .. }
            | Command::Send { .. }
            | Command::SendInPool { .. }
            | Command::Receive { .. }
    )
}

// A command that needs no state.
fn stateless(
    desk: Desk,
    command: Command,
    line: &[u8],
    memory: &[u8],
    draft: &mut [u8; ROOM],
    out: &mut [u8],
) -> Desk {
    if is_configured(command) {
        return configured(desk, command, line, draft, out);
    }
    let mut next = changed(desk, command);
    next.at = asked(desk, command, memory, out);
    next
}

// The configuration of the driver, written in a version into so much room of a buffer.
fn config_into(
    state: &State,
    desk: Desk,
    version: u32,
    room: u32,
    buffer: &mut [u8],
    out: &mut [u8],
) -> usize {
    let count = (room as usize).min(buffer.len());
    let setup = can::configuration_of(*state);
    let reply = can::write_configuration(version, setup, &mut buffer[..count]);
    if desk.plain {
        return plain::config(out, desk.at, desk.line, state, version, room, reply);
    }
    terse::config(out, desk.at, desk.line, reply, buffer)
}

fn config(state: &State, desk: Desk, version: u32, room: u32, out: &mut [u8]) -> usize {
    let mut buffer = [0u8; LARGEST_ROOM];
    config_into(state, desk, version, room, &mut buffer, out)
}

// Whether a command looks at the state.
fn looks(command: Command) -> bool {
    matches!(command, Command::State | Command::Config { .. })
}

// What such a command is told as.
fn looked(state: &State, desk: Desk, command: Command, out: &mut [u8]) -> usize {
    match command {
        Command::Config { version, room } => config(state, desk, version, room, out),
        _ => state_told(state, desk, out),
    }
}

// A command that is no call.
fn other(
    night: Night,
    command: Command,
    line: &[u8],
    memory: &[u8],
    draft: &mut [u8; ROOM],
    out: &mut [u8],
) -> Night {
    let state = night.state;
    let desk = night.desk;
    if looks(command) {
        let mut told = desk;
        told.at = looked(&state, desk, command, out);
        return Night {
            state: night.state,
            desk: told,
        };
    }
    let desk = stateless(desk, command, line, memory, draft, out);
    Night {
        state: night.state,
        desk,
    }
}

// A line that is no call: it is read again, so that what plays a call carries no command.
fn no_call(
    night: Night,
    line: &[u8],
    memory: &[u8],
    bytes: &mut [u8; MOST_BYTES],
    draft: &mut [u8; ROOM],
    out: &mut [u8],
) -> Night {
    match bench_script::command::read(line, bytes) {
        Ok(command) => other(night, command, line, memory, draft, out),
        Err(trouble) => Night {
            state: night.state,
            desk: not_understood(night.desk, trouble, line, out),
        },
    }
}

// What a line asks for. The bytes that it brings are put into the buffer.
fn asks(line: &[u8], bytes: &mut [u8; MOST_BYTES]) -> Asks {
    request_of(bench_script::command::read(line, bytes))
}

// Plays one line, which has no line end any more.
pub fn play(
    night: Night,
    line: &[u8],
    memory: &mut [u8],
    sheet: &mut [u32],
    bytes: &mut [u8; MOST_BYTES],
    draft: &mut [u8; ROOM],
    out: &mut [u8],
    book: &mut [u64],
) -> Night {
    let asks = asks(line, bytes);
    match asks {
        Asks::Call(wanted) => call_of_line(night, wanted, bytes, memory, sheet, out, book),
        Asks::InitInWords => init_in_words(night, draft, memory, sheet, out, book),
        Asks::Other => no_call(night, line, memory, bytes, draft, out),
    }
}
