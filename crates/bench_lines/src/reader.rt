// Reading lines. The input comes in pieces, each of which a buffer holds; what a piece has of a line is put behind
// what is read of it so far.
ghost use Rattle.std.specs.Prelude.{◌≡◌, ◌<◌, length, leb};
ghost use Rattle.bench_lines.specs.Line.{Kept, line_length, last_line, Stretched, Refilled, Drawn, nothing_read, line_count, piece_size, Advanced, DrawnByStep};

use crate::scan::find;
use bench_text::put::{has_room, put};
use std::io::Read;

// How many bytes of the present line are read: of a part of it, or of the whole.
#[derive(Clone, Copy)]
pub enum Line {
    Part(usize),
    Whole(usize),
}

// Whether the input goes on, has ended, or could not be read.
#[derive(Clone, Copy)]
pub enum Status {
    Open,
    Ended,
    Failed,
}

// How many bytes of the piece are taken and how many it has, what is read of a line, and how the input stands.
#[derive(Clone, Copy)]
pub struct Reader {
    pub taken: usize,
    pub filled: usize,
    pub line: Line,
    pub status: Status,
}

// The count of a line that has no room.
const TOO_LONG: usize = usize::MAX;

// Puts more bytes of a line behind those that are read.
fn kept(line: &mut [u8], count: usize, more: &[u8]) -> usize
    ensures { Kept count more.now line.old line.new result }
{
    if !has_room(line.len(), count, more.len()) {
        return TOO_LONG;
    }
    put(line, count, more)
}

// The length of a line that an LF ends: a CR before it belongs to the line end.
fn without_cr(line: &[u8], count: usize) -> usize
    ensures { result ≡ line_length line.now count }
{
    match line.get(..count) {
        Some([.., b'\r']) => count - 1,
        _ => count,
    }
}

// What is read of a line when the input ends is the whole of it: the last one may end without an LF.
fn last_line(count: usize) -> Line
    ensures { result ≡ last_line count }
{
    if 0 < count {
        Line::Whole(count)
    } else {
        Line::Part(0)
    }
}

// Reads the next piece. Where there is none the input has ended. Where the read fails nobody knows how the line goes on.
fn refilled<R: Read>(source: &mut R, count: usize, input: &mut [u8]) -> Reader
    ensures piece { Refilled count (length input.old) result }
    ensures drawn { Drawn (R.remaining source.old) (R.remaining source.new) input.new result }
{
    let (filled, line, status) = match source.read(input) {
        Ok(0) => (0, last_line(count), Status::Ended),
        Ok(filled) => (filled, Line::Part(count), Status::Open),
        Err(_) => (0, Line::Part(count), Status::Failed),
    };
    Reader {
        taken: 0,
        filled,
        line,
        status,
    }
}

// Takes what the piece has of a line: the bytes before its LF, or all that are left.
fn stretched(taken: usize, piece: &[u8], count: usize, line: &mut [u8]) -> Reader
    requires { taken < length piece.now }
    ensures { Stretched taken count piece.now line.old line.new result }
{
    let filled = piece.len();
    let end = find(piece, taken, b'\n');
    let read = kept(line, count, &piece[taken..end]);
    let status = Status::Open;
    if end < filled {
        Reader {
            taken: end + 1,
            filled,
            line: Line::Whole(without_cr(line, read)),
            status,
        }
    } else {
        Reader {
            taken: filled,
            filled,
            line: Line::Part(read),
            status,
        }
    }
}

impl Reader {
    // Nothing is read yet.
    pub fn begun() -> Reader
        ensures { result ≡ nothing_read }
    {
        Reader {
            taken: 0,
            filled: 0,
            line: Line::Part(0),
            status: Status::Open,
        }
    }

    // How many bytes are read of the present line: a new one begins where the last one was whole.
    fn line_count(&self) -> usize
        ensures { result ≡ line_count self.now }
    {
        match self.line {
            Line::Whole(_) => 0,
            Line::Part(count) => count,
        }
    }

    // Whether the next step reads a piece, for which it may have to wait.
    pub fn will_read(&self, input: &[u8]) -> bool
        ensures { result ≡ leb (piece_size self.now input.now) self.now.taken }
    {
        self.filled.min(input.len()) <= self.taken
    }

    // One step on: within the piece where something of it is left, else the next piece is read.
    pub fn advance<R: Read>(&mut self, source: &mut R, input: &mut [u8], line: &mut [u8])
        ensures step { Advanced self.old input.old line.old input.new line.new self.new }
        ensures drawn { DrawnByStep self.old input.old input.new (R.remaining source.old) (R.remaining source.new) self.new }
    {
        let count = self.line_count();
        let filled = self.filled.min(input.len());
        *self = if self.taken < filled {
            stretched(self.taken, &input[..filled], count, line)
        } else {
            refilled(source, count, input)
        };
    }
}
