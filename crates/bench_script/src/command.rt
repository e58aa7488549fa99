// A line as a command.
ghost use Rattle.bench_script.specs.Command as commands;
ghost use Rattle.std.specs.Prelude.{◌≡◌};

use crate::count::counted;
use crate::name::{Name, arguments_of, name_of};
use crate::object::object;
use bench_words::bytes::{LONGEST_LINE, MOST_BYTES, bytes};
use bench_words::identifier::identifier;
use bench_words::number::{limited, mode, number};
use bench_words::reading::Trouble;
use bench_words::split::{after, first};

// What a line asks for. A length counts the bytes that the line brings: they stand in the buffer lent to `read`.
#[derive(Clone, Copy)]
pub enum Command {
    // Nothing: a blank line or a comment.
    Blank,
    Init {
        length: u32,
    },
    // Init with the configuration in words.
    InitInWords,
    DeInit,
    Set {
        controller: u32,
        mode: u32,
    },
    Get {
        controller: u32,
    },
    // The error state of a controller, and its two counts.
    ErrorState {
        controller: u32,
    },
    RxErrors {
        controller: u32,
    },
    TxErrors {
        controller: u32,
    },
    Write {
        object: u32,
        handle: u32,
        identifier: u32,
        length: u32,
    },
    PollWrite,
    PollRead,
    PollMode,
    PollBusOff,
    Sent {
        object: u32,
    },
    BusOff {
        controller: u32,
    },
    // What the controller counts now.
    Errors {
        controller: u32,
        transmit: u32,
        receive: u32,
    },
    Arrived {
        controller: u32,
        identifier: u32,
        length: u32,
    },
    // Who sends next on a controller.
    Next {
        controller: u32,
    },
    Data {
        object: u32,
    },
    Sheet {
        words: u32,
    },
    Memory {
        bytes: u32,
    },
    Show {
        object: u32,
    },
    State,
    // The driver's configuration, written as bytes of a version into so much room.
    Config {
        version: u32,
        room: u32,
    },
    // A configuration in words begins, and an object of it that sends or receives.
    Controllers {
        count: u32,
    },
    Send {
        controller: u32,
        payload: u32,
        padding: u32,
    },
    SendInPool {
        controller: u32,
        payload: u32,
        padding: u32,
        pool: u32,
    },
    Receive {
        controller: u32,
        payload: u32,
        code: u32,
        mask: u32,
    },
}

// The largest handle, sheet, memory and room that a line may name.
const LARGEST_HANDLE: u32 = 65535;

pub const LARGEST_SHEET: usize = 4096;

pub const LARGEST_MEMORY: usize = 16384;

pub const LARGEST_ROOM: usize = 4096;

// The largest number that fits a byte.
pub const LARGEST_BYTE: u32 = 255;

// init BYTES, or init alone
#[tactic(auto, unfolding(rules::specs::Bytes::splice))]
fn init(text: &[u8], out: &mut [u8; MOST_BYTES]) -> Result<Command, Trouble>
    ensures { commands.CommandRead (commands.init_of text.now) out.old out.new result }
{
    if first(text).is_empty() {
        return Ok(Command::InitInWords);
    }
    let length = bytes(text, out)?;
    Ok(Command::Init { length })
}

// set C MODE
fn set(text: &[u8]) -> Result<Command, Trouble>
    ensures { result ≡ commands.set_of text.now }
{
    let controller = number(first(text))?;
    let mode = mode(first(after(text)))?;
    Ok(Command::Set { controller, mode })
}

// errors C TX RX
fn errors(text: &[u8]) -> Result<Command, Trouble>
    ensures { result ≡ commands.errors_of text.now }
{
    let controller = number(first(text))?;
    let text = after(text);
    let transmit = number(first(text))?;
    let receive = number(first(after(text)))?;
    Ok(Command::Errors {
        controller,
        transmit,
        receive,
    })
}

// config V ROOM
fn config(text: &[u8]) -> Result<Command, Trouble>
    ensures { result ≡ commands.config_of text.now }
{
    let version = number(first(text))?;
    let room = limited(
        first(after(text)),
        LARGEST_ROOM as u32,
        Trouble::RoomTooLarge,
    )?;
    Ok(Command::Config { version, room })
}

// poll write | read | mode | busoff
#[tactic(auto, unfolding(crate::specs::Command::poll_of))]
fn poll(word: &[u8]) -> Result<Command, Trouble>
    ensures { result ≡ commands.poll_of word.now }
{
    match word {
        b"write" => Ok(Command::PollWrite),
        b"read" => Ok(Command::PollRead),
        b"mode" => Ok(Command::PollMode),
        b"busoff" => Ok(Command::PollBusOff),
        _ => Err(Trouble::UnknownPoll),
    }
}

// write OBJ HANDLE ID BYTES
#[tactic(auto, unfolding(rules::specs::Bytes::splice))]
fn write(text: &[u8], out: &mut [u8; MOST_BYTES]) -> Result<Command, Trouble>
    ensures { commands.CommandRead (commands.write_of text.now) out.old out.new result }
{
    let object = number(first(text))?;
    let text = after(text);
    let handle = limited(first(text), LARGEST_HANDLE, Trouble::HandleTooLarge)?;
    let text = after(text);
    let identifier = identifier(first(text))?;
    let length = bytes(after(text), out)?;
    Ok(Command::Write {
        object,
        handle,
        identifier,
        length,
    })
}

// arrived C ID BYTES
#[tactic(auto, unfolding(rules::specs::Bytes::splice))]
fn arrived(text: &[u8], out: &mut [u8; MOST_BYTES]) -> Result<Command, Trouble>
    ensures { commands.CommandRead (commands.arrived_of text.now) out.old out.new result }
{
    let controller = number(first(text))?;
    let text = after(text);
    let identifier = identifier(first(text))?;
    let length = bytes(after(text), out)?;
    Ok(Command::Arrived {
        controller,
        identifier,
        length,
    })
}

// The words after a name.
#[tactic(auto, unfolding(crate::specs::Command::named, rules::specs::Bytes::splice))]
fn named(name: Name, text: &[u8], out: &mut [u8; MOST_BYTES]) -> Result<Command, Trouble>
    ensures { commands.CommandRead (commands.named name text.now) out.old out.new result }
{
    let word = first(text);
    match name {
        Name::Init => init(text, out),
        Name::DeInit => Ok(Command::DeInit),
        Name::Set => set(text),
        Name::Get => Ok(Command::Get {
            controller: number(word)?,
        }),
        Name::ErrorState => Ok(Command::ErrorState {
            controller: number(word)?,
        }),
        Name::RxErrors => Ok(Command::RxErrors {
            controller: number(word)?,
        }),
        Name::TxErrors => Ok(Command::TxErrors {
            controller: number(word)?,
        }),
        Name::Write => write(text, out),
        Name::Poll => poll(word),
        Name::Sent => Ok(Command::Sent {
            object: number(word)?,
        }),
        Name::BusOff => Ok(Command::BusOff {
            controller: number(word)?,
        }),
        Name::Errors => errors(text),
        Name::Arrived => arrived(text, out),
        Name::Next => Ok(Command::Next {
            controller: number(word)?,
        }),
        Name::Data => Ok(Command::Data {
            object: number(word)?,
        }),
        Name::Sheet => Ok(Command::Sheet {
            words: limited(word, LARGEST_SHEET as u32, Trouble::SheetTooLong)?,
        }),
        Name::Memory => Ok(Command::Memory {
            bytes: limited(word, LARGEST_MEMORY as u32, Trouble::MemoryTooLong)?,
        }),
        Name::Show => Ok(Command::Show {
            object: number(word)?,
        }),
        Name::State => Ok(Command::State),
        Name::Config => config(text),
        Name::Controllers => Ok(Command::Controllers {
            count: limited(word, LARGEST_BYTE, Trouble::ByteTooLarge)?,
        }),
        Name::Object => object(text),
    }
}

// Whether a line says nothing: it is blank, or a comment alone.
pub fn says_nothing(line: &[u8]) -> bool
    ensures { result ≡ commands.says_nothing line.now }
{
    line.len() <= LONGEST_LINE && first(line).is_empty()
}

// Reads a line, which has no line end any more. The bytes that it brings are put at the start of out.
#[tactic(auto, unfolding(crate::specs::Command::command_of, rules::specs::Bytes::splice))]
pub fn read(line: &[u8], out: &mut [u8; MOST_BYTES]) -> Result<Command, Trouble>
    ensures { commands.CommandRead (commands.command_of line.now) out.old out.new result }
{
    if LONGEST_LINE < line.len() {
        return Err(Trouble::LineTooLong);
    }
    let word = first(line);
    if word.is_empty() {
        return Ok(Command::Blank);
    }
    let name = name_of(word).ok_or(Trouble::UnknownCommand)?;
    counted(arguments_of(name), line)?;
    named(name, after(line), out)
}
