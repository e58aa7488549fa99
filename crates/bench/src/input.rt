// The whole of a script, played line by line.
ghost use Rattle.std.specs.Prelude.{◌≡◌, length};

use crate::heard::{Heard, sought, whole_line};
use crate::{heard, line, report};
use bench_draft::draft;
use bench_lines::reader::Status;
use bench_messages::reports;
use bench_plain::night::{CANCELLED_AT, Desk, Night, OUT_ROOM, OUTPUT, TAKEN_AT};
use bench_plain::{book, night, summary, waiting};
use bench_script::command::{LARGEST_MEMORY, LARGEST_SHEET};
use bench_words::bytes::{LONGEST_LINE, MOST_BYTES};
use bench_words::split::between;
use can::{RAM_SIZE, State};
use std::io::Read;

// A line, and the CR before its LF or the byte that makes a line too long.
const LINE_ROOM: usize = LONGEST_LINE + 1;

// An output buffer and a book with nothing in them yet. The contracts give the lengths, which lending the arrays as slices needs.
fn output() -> [u8; OUT_ROOM]
    ensures { 327680 ≡ length result }
{
    [0; OUT_ROOM]
}

fn empty_book() -> [u64; book::ROOM]
    ensures { 109 ≡ length result }
{
    [0; book::ROOM]
}

// Writes a part of the output buffer. Where that fails the night is stopped.
fn written_part(stdout: &impl Print, desk: Desk, out: &[u8], from: usize, to: usize) -> Desk {
    let done = stdout.write_all(between(out, from, to)).is_ok();
    let mut next = desk;
    next.at = 0;
    next.stuck = desk.stuck | !done;
    next
}

// Writes what stands in the output buffer before the lists.
fn written(stdout: &impl Print, desk: Desk, out: &[u8]) -> Desk {
    written_part(stdout, desk, out, 0, desk.at)
}

// The same once it is half full: the answer to a line takes less than the other half.
fn written_if_full(stdout: &impl Print, night: Night, out: &[u8]) -> Night {
    let desk = night.desk;
    if desk.at < OUTPUT / 2 {
        return night;
    }
    let state = night.state;
    let next = written(stdout, desk, out);
    Night {
        state: state,
        desk: next,
    }
}

// The same before a step that reads.
fn written_if_reading(stdout: &impl Print, night: Night, reads: bool, out: &[u8]) -> Night {
    if !reads {
        return night;
    }
    let state = night.state;
    let desk = night.desk;
    let next = written(stdout, desk, out);
    Night {
        state: state,
        desk: next,
    }
}

// The night at a line.
fn at_line(night: Night, line: u64) -> Night {
    let state = night.state;
    let mut desk = night.desk;
    desk.line = line;
    Night {
        state: state,
        desk: desk,
    }
}

// Plays the line that is read, if it says something.
fn played(
    stdout: &impl Print,
    night: Night,
    heard: Heard,
    line: &[u8],
    memory: &mut [u8],
    sheet: &mut [u32],
    bytes: &mut [u8; MOST_BYTES],
    draft: &mut [u8; draft::ROOM],
    out: &mut [u8; OUT_ROOM],
    book: &mut [u64; book::ROOM],
) -> Night {
    if !heard.said {
        return night;
    }
    let Some(text) = whole_line(heard.reader, line) else {
        return night;
    };
    let next = line::play(
        at_line(night, heard.lines),
        text,
        memory,
        sheet,
        bytes,
        draft,
        out,
        book,
    );
    written_if_full(stdout, next, out)
}

// A night, and how far its script is read.
#[derive(Clone, Copy)]
struct Playing {
    night: Night,
    heard: Heard,
}

// On to the next line that says something, which is played. What is played so far is written out before a read that may wait.
fn step<R: Read>(
    source: &mut R,
    stdout: &impl Print,
    playing: Playing,
    input: &mut [u8],
    line: &mut [u8],
    memory: &mut [u8],
    sheet: &mut [u32],
    bytes: &mut [u8; MOST_BYTES],
    draft: &mut [u8; draft::ROOM],
    out: &mut [u8; OUT_ROOM],
    book: &mut [u64; book::ROOM],
) -> Playing {
    let last = playing.night;
    let before = playing.heard;
    let mut night = written_if_reading(stdout, last, before.reader.will_read(input), out);
    let heard = sought(source, before, input, line);
    night = played(
        stdout, night, heard, line, memory, sheet, bytes, draft, out, book,
    );
    Playing {
        night: night,
        heard: heard,
    }
}

// Whether nothing more is played.
fn is_over(playing: &Playing) -> bool {
    !matches!(playing.heard.reader.status, Status::Open) | playing.night.desk.stuck
}

// Plays the script to its end. Nothing says that an input ends, so the steps are counted, up to more than there can be.
fn all<R: Read>(
    source: &mut R,
    stdout: &impl Print,
    start: Playing,
    input: &mut [u8],
    line: &mut [u8],
    memory: &mut [u8],
    sheet: &mut [u32],
    bytes: &mut [u8; MOST_BYTES],
    draft: &mut [u8; draft::ROOM],
    out: &mut [u8; OUT_ROOM],
    book: &mut [u64; book::ROOM],
) -> Playing {
    let mut playing = start;
    for _ in 0..u64::MAX {
        playing = step(
            source, stdout, playing, input, line, memory, sheet, bytes, draft, out, book,
        );
        if is_over(&playing) {
            break;
        }
    }
    playing
}

// A fresh bench, with nothing of the script read yet.
fn start(plain: bool) -> Playing {
    let night = night::begun(plain);
    let heard = heard::nothing();
    Playing {
        night: night,
        heard: heard,
    }
}

// Writes the totals of a night behind what stands in the output buffer, the frames that still wait, and the heading of the first list.
fn summed_up(
    stdout: &impl Print,
    state: &State,
    desk: Desk,
    ram: &[u8],
    out: &mut [u8],
    book: &[u64],
) -> Desk {
    let mut last = desk;
    last.at = summary::totals(out, desk.at, book, desk.unreadable);
    last.at = waiting::list(out, last.at, state, book, ram);
    last.at = summary::taken_heading(out, last.at, book);
    written(stdout, last, out)
}

// Writes the list of frames that a bus-off took, and the heading of the second list.
fn taken_listed(stdout: &impl Print, desk: Desk, out: &mut [u8], book: &[u64]) -> Desk {
    let lists = desk.lists;
    let mut last = written_part(stdout, desk, out, TAKEN_AT, lists.taken_at);
    last.at = summary::unlisted(out, 0, lists.taken_unlisted);
    last.at = summary::cancelled_heading(out, last.at, book);
    written(stdout, last, out)
}

// Writes the list of frames that a stop cancelled.
fn cancelled_listed(stdout: &impl Print, desk: Desk, out: &mut [u8]) -> Desk {
    let lists = desk.lists;
    let mut last = written_part(stdout, desk, out, CANCELLED_AT, lists.cancelled_at);
    last.at = summary::unlisted(out, 0, lists.cancelled_unlisted);
    written(stdout, last, out)
}

// `end LINES BAD`: lines read, and lines not understood.
fn counted(stdout: &impl Print, desk: Desk, lines: u64, out: &mut [u8]) -> Desk {
    let mut last = desk;
    last.at = reports::ended(out, desk.at, lines, desk.unreadable);
    written(stdout, last, out)
}

// The end of a night in plain words: its totals, the frames that still wait, and those that a bus-off took or a stop cancelled.
fn told(
    stdout: &impl Print,
    state: &State,
    desk: Desk,
    ram: &[u8],
    out: &mut [u8],
    book: &[u64],
) -> Desk {
    let mut last = summed_up(stdout, state, desk, ram, out, book);
    last = taken_listed(stdout, last, out, book);
    cancelled_listed(stdout, last, out)
}

// The end of a night that was played whole.
fn finished(
    stdout: &impl Print,
    night: Night,
    lines: u64,
    ram: &[u8],
    out: &mut [u8],
    book: &[u64],
) -> Desk {
    let state = night.state;
    let desk = night.desk;
    if desk.plain {
        return told(stdout, &state, desk, ram, out, book);
    }
    counted(stdout, desk, lines, out)
}

// Says on standard error what went wrong: the output, or lines that were not understood.
fn judged(stderr: &impl Print, desk: Desk, lines: u64) {
    if desk.stuck {
        report::unwritten(stderr, lines);
        return;
    }
    report::misunderstood(stderr, desk, lines);
}

// A night that was played to its end, or whose output could not be written.
fn closed(
    stdout: &impl Print,
    stderr: &impl Print,
    night: Night,
    lines: u64,
    memory: &[u8],
    out: &mut [u8; OUT_ROOM],
    book: &mut [u64; book::ROOM],
) {
    let desk = night.desk;
    if desk.stuck {
        judged(stderr, desk, lines);
        return;
    }
    let own = RAM_SIZE.min(memory.len());
    let state = night.state;
    book::count_left_over(book, &state);
    let last = finished(stdout, night, lines, &memory[..own], out, book);
    judged(stderr, last, lines);
}

// Ends the night. A script that could not be read to its end has no totals.
fn ended(
    stdout: &impl Print,
    stderr: &impl Print,
    playing: Playing,
    memory: &[u8],
    out: &mut [u8; OUT_ROOM],
    book: &mut [u64; book::ROOM],
) {
    let night = playing.night;
    let heard = playing.heard;
    if matches!(heard.reader.status, Status::Failed) {
        let desk = night.desk;
        written(stdout, desk, out);
        report::unread(stderr, heard.lines);
        return;
    }
    closed(stdout, stderr, night, heard.lines, memory, out, book);
}

// Plays the night on standard input, from a fresh bench.
pub fn play(rt: HostRuntime, plain: bool) {
    let mut stdin = rt.stdin();
    let stdout = rt.stdout();
    let mut input = io::large_buffer();
    let mut out = output();
    let mut book = empty_book();
    let mut line = [0u8; LINE_ROOM];
    let mut memory = [0u8; LARGEST_MEMORY];
    let mut sheet = [0u32; LARGEST_SHEET];
    let mut bytes = [0u8; MOST_BYTES];
    let mut draft = [0u8; draft::ROOM];
    draft::begin(&mut draft, 0);
    let end = all(
        &mut stdin,
        &stdout,
        start(plain),
        &mut input,
        &mut line,
        &mut memory,
        &mut sheet,
        &mut bytes,
        &mut draft,
        &mut out,
        &mut book,
    );
    ended(&stdout, &rt.stderr(), end, &memory, &mut out, &mut book);
}
