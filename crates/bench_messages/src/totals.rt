// The end of a night in words.
ghost use Rattle.bench_text.specs.Put.{Put};
ghost use Rattle.bench_messages.specs.Totals as totals;

use bench_say::say::{say, say_one};

// How many rows the table has.
pub const ROWS: usize = 11;

// A row, and its number in all; none behind the last one.
pub fn row(out: &mut [u8], at: usize, what: usize, n: u64) -> usize
    ensures { Put at (totals.row what n) out.old out.new result }
{
    let texts = b"  frames written       %8|  \
        confirmed            %8|  \
        cancelled by a stop  %8|  \
        taken by a bus-off   %8|  \
        still waiting        %8|  \
        frames arrived       %8|  \
        read                 %8|  \
        still unread         %8|  \
        dropped by DeInit    %8|  \
        lost                 %8|  \
        unwanted             %8";
    if ROWS <= what {
        return at;
    }
    say_one(out, at, texts, what, [n, 0, 0, 0, 0])
}

// The heading of the table, where there is one controller or several.
pub fn heading(out: &mut [u8], at: usize, several: bool) -> usize
    ensures { Put at (totals.heading several) out.old out.new result }
{
    if several {
        return say(
            out,
            at,
            b"\nAt the end of the night     all",
            [0, 0, 0, 0, 0],
        );
    }
    say(out, at, b"\nAt the end of the night\n", [0, 0, 0, 0, 0])
}

// A controller's heading, and its number.
pub fn controller(out: &mut [u8], at: usize, c: u64) -> usize
    ensures { Put at (totals.controller c) out.old out.new result }
{
    say(out, at, b"  controller %0", [c, 0, 0, 0, 0])
}

pub fn cell(out: &mut [u8], at: usize, n: u64) -> usize
    ensures { Put at (totals.cell n) out.old out.new result }
{
    say(out, at, b"      %8", [n, 0, 0, 0, 0])
}

pub fn unreadable(out: &mut [u8], at: usize, lines: u64) -> usize
    ensures { Put at (totals.unreadable lines) out.old out.new result }
{
    say(out, at, b"  lines not understood %8\n", [lines, 0, 0, 0, 0])
}

// The headings of the lists.
pub fn waiting(out: &mut [u8], at: usize) -> usize
    ensures { Put at (totals.waiting) out.old out.new result }
{
    say(out, at, b"\nStill waiting\n", [0, 0, 0, 0, 0])
}

pub fn taken(out: &mut [u8], at: usize, some: bool) -> usize
    ensures { Put at (totals.taken some) out.old out.new result }
{
    if some {
        return say(out, at, b"\nTaken by bus-off\n", [0, 0, 0, 0, 0]);
    }
    say(out, at, b"\nTaken by bus-off: no frame\n", [0, 0, 0, 0, 0])
}

pub fn cancelled(out: &mut [u8], at: usize) -> usize
    ensures { Put at (totals.cancelled) out.old out.new result }
{
    say(out, at, b"\nCancelled by a stop\n", [0, 0, 0, 0, 0])
}

// Frames that a list had no room for.
pub fn unlisted(out: &mut [u8], at: usize, n: u64) -> usize
    ensures { Put at (totals.unlisted n) out.old out.new result }
{
    say(
        out,
        at,
        b"  and %0 more, each shown under its poll above\n",
        [n, 0, 0, 0, 0],
    )
}
