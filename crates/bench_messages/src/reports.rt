// What is said of a whole night on standard error, and how the words style ends. `play` reads these lines, too.
ghost use Rattle.bench_text.specs.Put.{Put};
ghost use Rattle.bench_messages.specs.Reports as reports;

use bench_say::say::say;

// The night was stopped at a line, since a file could not be written or read.
pub fn unwritten(out: &mut [u8], at: usize, line: u64) -> usize
    ensures { Put at (reports.unwritten line) out.old out.new result }
{
    let text = b"bench: standard output cannot be written; the night was stopped at line %0\n";
    say(out, at, text, [line, 0, 0, 0, 0])
}

pub fn unread(out: &mut [u8], at: usize, line: u64) -> usize
    ensures { Put at (reports.unread line) out.old out.new result }
{
    let text = b"bench: standard input cannot be read; the night was stopped at line %0\n";
    say(out, at, text, [line, 0, 0, 0, 0])
}

// Some lines were not understood.
pub fn not_understood(out: &mut [u8], at: usize, bad: u64, lines: u64, first: u64) -> usize
    ensures { Put at (reports.not_understood bad lines first) out.old out.new result }
{
    let text = b"bench: %0 of %0 lines not understood, first at line %0\n";
    say(out, at, text, [bad, lines, first, 0, 0])
}

// Lines read, and lines not understood.
pub fn ended(out: &mut [u8], at: usize, lines: u64, bad: u64) -> usize
    ensures { Put at (reports.ended lines bad) out.old out.new result }
{
    say(out, at, b"end %0 %0\n", [lines, bad, 0, 0, 0])
}
