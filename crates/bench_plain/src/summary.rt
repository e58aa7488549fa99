// The end of a night in plain words: what became of its frames, in all and, where there is more than one, for each controller.
use crate::book;
use crate::book::{counted, total};
use bench_messages::totals;
use bench_messages::totals::ROWS;
use bench_text::put::put;
use can::CONTROLLERS;
use core_places::range::limited;

// The columns of the controllers; none where there is only one.
fn columns(book: &[u64]) -> usize {
    let n = book::controllers(book) as usize;
    if n < 2 {
        return 0;
    }
    limited(n, CONTROLLERS)
}

// A heading for each controller.
fn headings(out: &mut [u8], at: usize, columns: usize) -> usize {
    let mut end = at;
    for c in 0..columns {
        end = totals::controller(out, end, c as u64);
    }
    end
}

// What each controller's frames came to.
fn cells(out: &mut [u8], at: usize, book: &[u64], what: usize, columns: usize) -> usize {
    let mut end = at;
    for c in 0..columns {
        end = totals::cell(out, end, counted(book, c, what));
    }
    end
}

// One line of the table.
fn row(out: &mut [u8], at: usize, book: &[u64], what: usize) -> usize {
    let mut end = totals::row(out, at, what, total(book, what));
    end = cells(out, end, book, what, columns(book));
    put(out, end, b"\n")
}

fn rows(out: &mut [u8], at: usize, book: &[u64]) -> usize {
    let mut end = at;
    for what in 0..ROWS {
        end = row(out, end, book, what);
    }
    end
}

// The heading of the table.
fn heading(out: &mut [u8], at: usize, book: &[u64]) -> usize {
    let columns = columns(book);
    let end = totals::heading(out, at, 0 < columns);
    if columns == 0 {
        return end;
    }
    let end_of_row = headings(out, end, columns);
    put(out, end_of_row, b"\n")
}

// The totals of a night.
pub fn totals(out: &mut [u8], at: usize, book: &[u64], unreadable: u64) -> usize {
    let mut end = heading(out, at, book);
    end = rows(out, end, book);
    totals::unreadable(out, end, unreadable)
}

// The heading of the list of frames that a bus-off took.
pub fn taken_heading(out: &mut [u8], at: usize, book: &[u64]) -> usize {
    totals::taken(out, at, total(book, book::TAKEN) != 0)
}

// The heading of the list of frames that a stop cancelled, where there are any.
pub fn cancelled_heading(out: &mut [u8], at: usize, book: &[u64]) -> usize {
    if total(book, book::CANCELLED) == 0 {
        return at;
    }
    totals::cancelled(out, at)
}

// Frames that a list had no room for.
pub fn unlisted(out: &mut [u8], at: usize, n: u64) -> usize {
    if n == 0 {
        return at;
    }
    totals::unlisted(out, at, n)
}
