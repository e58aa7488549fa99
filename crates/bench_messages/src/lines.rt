// How a line of the plain style begins, and what stands between its parts.
ghost use Rattle.std.specs.Prelude.{true};
ghost use Rattle.bench_text.specs.Put.{Put};
ghost use Rattle.bench_messages.specs.Lines as lines;

use bench_say::form::hex_or_none;
use bench_say::say::say;
use bench_text::put::put;

// The number of a line.
pub fn number(out: &mut [u8], at: usize, line: u64) -> usize
    ensures { Put at (lines.number line) out.old out.new result }
{
    say(out, at, b"%6  ", [line, 0, 0, 0, 0])
}

// What a line looks at.
pub fn data(out: &mut [u8], at: usize, line: u64, object: u64) -> usize
    ensures { Put at (lines.data_of line object) out.old out.new result }
{
    say(out, at, b"%6  data of object %0", [line, object, 0, 0, 0])
}

pub fn show(out: &mut [u8], at: usize, line: u64, object: u64) -> usize
    ensures { Put at (lines.show line object) out.old out.new result }
{
    say(out, at, b"%6  show object %0", [line, object, 0, 0, 0])
}

pub fn no_object(out: &mut [u8], at: usize) -> usize
    ensures { Put at (lines.no_object) out.old out.new result }
{
    say(out, at, b"there is no such object\n", [0, 0, 0, 0, 0])
}

pub fn state(out: &mut [u8], at: usize, line: u64) -> usize
    ensures { Put at (lines.state line) out.old out.new result }
{
    say(out, at, b"%6  state", [line, 0, 0, 0, 0])
}

// A line that is not understood, and what was expected.
pub fn not_understood(out: &mut [u8], at: usize, line: u64) -> usize
    ensures { Put at (lines.not_understood line) out.old out.new result }
{
    say(out, at, b"%6  not understood: ", [line, 0, 0, 0, 0])
}

pub fn but_expected(out: &mut [u8], at: usize) -> usize
    ensures { Put at (lines.but_expected) out.old out.new result }
{
    say(out, at, b"; expected ", [0, 0, 0, 0, 0])
}

// A word in quotation marks.
fn marked(out: &mut [u8], at: usize, word: &[u8]) -> usize
    ensures { Put at (lines.quoted word.now true) out.old out.new result }
{
    let start = put(out, at, b" \"");
    let end = put(out, start, word);
    put(out, end, b"\"")
}

// The same; its bytes in hexadecimal where they cannot be shown.
pub fn quoted(out: &mut [u8], at: usize, word: &[u8], printable: bool) -> usize
    ensures { Put at (lines.quoted word.now printable) out.old out.new result }
{
    if printable {
        return marked(out, at, word);
    }
    let end = put(out, at, b", bytes ");
    hex_or_none(out, end, word)
}

// What may have been meant by a line that begins with a byte order mark, or has a CR.
pub fn order_mark(out: &mut [u8], at: usize) -> usize
    ensures { Put at (lines.order_mark) out.old out.new result }
{
    say(out, at, b" (a byte order mark?)", [0, 0, 0, 0, 0])
}

pub fn lone_cr(out: &mut [u8], at: usize) -> usize
    ensures { Put at (lines.lone_cr) out.old out.new result }
{
    say(out, at, b" (lines that end in CR alone?)", [0, 0, 0, 0, 0])
}

// What changes the bench alone: the configuration in words, the sheet and the memory that are lent.
pub fn next_controllers(out: &mut [u8], at: usize, line: u64, n: u64) -> usize
    ensures { Put at (lines.next_controllers line n) out.old out.new result }
{
    say(out, at, b"%6  %c in the next init\n", [line, n, 0, 0, 0])
}

pub fn next_object(out: &mut [u8], at: usize, line: u64, object: u64) -> usize
    ensures { Put at (lines.next_object line object) out.old out.new result }
{
    say(
        out,
        at,
        b"%6  object %0 of the next init\n",
        [line, object, 0, 0, 0],
    )
}

pub fn sheet(out: &mut [u8], at: usize, line: u64, words: u64) -> usize
    ensures { Put at (lines.sheet line words) out.old out.new result }
{
    say(
        out,
        at,
        b"%6  sheet of %w from here on\n",
        [line, words, 0, 0, 0],
    )
}

pub fn memory(out: &mut [u8], at: usize, line: u64, bytes: u64) -> usize
    ensures { Put at (lines.memory line bytes) out.old out.new result }
{
    say(
        out,
        at,
        b"%6  memory of %b from here on\n",
        [line, bytes, 0, 0, 0],
    )
}
