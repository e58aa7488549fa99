// The whole of the input, played line by line.
use crate::line;
use bench_lines::reader::{Line, Reader, Status};
use bench_script::command::{LARGEST_MEMORY, LARGEST_SHEET};
use bench_words::bytes::{LONGEST_LINE, MOST_BYTES};
use std::io::Read;

// A line, and the CR before its LF or the byte that makes a line too long.
const LINE_ROOM: usize = LONGEST_LINE + 1;

// How far the output is filled, the number of lines played, and how far the input is read.
#[derive(Clone, Copy)]
struct Playing {
    at: usize,
    line: u64,
    reader: Reader,
}

// Writes what stands in the output buffer.
fn written(stdout: &impl Print, at: usize, out: &[u8]) -> usize {
    let end = at.min(out.len());
    let _ = stdout.write_all(&out[..end]);
    0
}

// The same once it is half full: the answer to a line takes less than the other half.
fn written_if_full(stdout: &impl Print, at: usize, out: &[u8]) -> usize {
    if at < out.len() / 2 {
        return at;
    }
    written(stdout, at, out)
}

// Plays the line that is read, once it is whole.
fn played(
    stdout: &impl Print,
    playing: Playing,
    reader: Reader,
    line: &[u8],
    memory: &mut [u8],
    sheet: &mut [u32],
    bytes: &mut [u8; MOST_BYTES],
    out: &mut [u8],
) -> Playing {
    let Line::Whole(count) = reader.line else {
        return Playing { reader, ..playing };
    };
    let number = std::num::wrapping_add_u64(playing.line, 1);
    let text = &line[..count.min(line.len())];
    let at = line::play(out, playing.at, number, text, bytes, memory, sheet);
    Playing {
        at: written_if_full(stdout, at, out),
        line: number,
        reader,
    }
}

// One step on in the input, and a case played if that makes a line whole.
fn step<R: Read>(
    source: &mut R,
    stdout: &impl Print,
    playing: Playing,
    input: &mut [u8],
    line: &mut [u8],
    memory: &mut [u8],
    sheet: &mut [u32],
    bytes: &mut [u8; MOST_BYTES],
    out: &mut [u8],
) -> Playing {
    let mut reader = playing.reader;
    reader.advance(source, input, line);
    played(stdout, playing, reader, line, memory, sheet, bytes, out)
}

// Plays the input to its end. Nothing says that an input ends, so the steps are counted, up to more than there can be.
fn all<R: Read>(
    source: &mut R,
    stdout: &impl Print,
    start: Playing,
    input: &mut [u8],
    line: &mut [u8],
    memory: &mut [u8],
    sheet: &mut [u32],
    bytes: &mut [u8; MOST_BYTES],
    out: &mut [u8],
) -> Playing {
    let mut playing = start;
    for _ in 0..u64::MAX {
        playing = step(
            source, stdout, playing, input, line, memory, sheet, bytes, out,
        );
        if !matches!(playing.reader.status, Status::Open) {
            break;
        }
    }
    playing
}

// Nothing is played yet.
fn begun() -> Playing {
    Playing {
        at: 0,
        line: 0,
        reader: Reader::begun(),
    }
}

// Plays the cases on standard input.
pub fn play(rt: HostRuntime) {
    let mut stdin = rt.stdin();
    let stdout = rt.stdout();
    let mut input = io::large_buffer();
    let mut out = io::large_buffer();
    let mut line = [0u8; LINE_ROOM];
    let mut memory = [0u8; LARGEST_MEMORY];
    let mut sheet = [0u32; LARGEST_SHEET];
    let mut bytes = [0u8; MOST_BYTES];
    let end = all(
        &mut stdin,
        &stdout,
        begun(),
        &mut input,
        &mut line,
        &mut memory,
        &mut sheet,
        &mut bytes,
        &mut out,
    );
    written(&stdout, end.at, &out);
}
