// A call and all that came of it, in plain words and in the book.
use crate::ledger::{note_answer, note_call};
use crate::night::Desk;
use crate::tell::{Poll, Told};
use crate::{plain, tell};
use can::State;
use can_calls::perform::Played;
use can_calls::request::{Request, is_bus_off_poll};

// The call and its notifications in words; bytes are those that it was given.
pub fn in_words(
    state: &State,
    desk: Desk,
    request: Request,
    length: u32,
    bytes: &[u8],
    played: &Played,
    ram: &[u8],
    sheet: &[u32],
    out: &mut [u8],
    book: &mut [u64],
) -> Told {
    let at = plain::call(
        out, desk.at, state, desk, book, request, length, bytes, played, ram,
    );
    let accepted = played.verdict.is_ok();
    note_call(book, state, &played.state, request, desk.line, accepted);
    note_answer(book, state, request, played.answer, desk.line);
    let start = Told {
        at,
        lists: desk.lists,
    };
    let poll = Poll {
        line: desk.line,
        by_bus_off: is_bus_off_poll(request),
    };
    let count = played.notifications;
    tell::all(start, out, book, ram, state, poll, sheet, count)
}
