// One line of the input: a case is played, and what came of it is put down.
use crate::case::{CASE_BYTES, Case, read_case};
use crate::number::after;
use crate::pattern::{fill_memory, fill_sheet, memory_same, sheet_same};
use crate::print::{answered, changes, unreadable};
use crate::same::same;
use bench_words::bytes::{LONGEST_LINE, MOST_BYTES};
use bench_words::split::word;
use can_calls::perform::{Played, perform};

// The call, with as much of the memory and the sheet as the case lends.
fn performed(case: &Case, data: &[u8], memory: &mut [u8], sheet: &mut [u32]) -> Played {
    let state = case.state;
    let lent_bytes = case.memory.min(memory.len());
    let lent_words = case.sheet.min(sheet.len());
    perform(
        state,
        &mut memory[..lent_bytes],
        &mut sheet[..lent_words],
        data,
        case.request,
    )
}

// What came of a call. Memory and sheet are looked at whole, also where they were not lent.
fn told(
    out: &mut [u8],
    at: usize,
    line: u64,
    case: &Case,
    played: &Played,
    memory: &[u8],
    sheet: &[u32],
) -> usize {
    let count = played.notifications;
    let end = answered(out, at, line, played.verdict, played.answer, count);
    let state_same = same(&case.state, &played.state);
    changes(out, end, state_same, memory_same(memory), sheet_same(sheet))
}

// Plays the case that the bytes say.
fn played(
    out: &mut [u8],
    at: usize,
    line: u64,
    bytes: &[u8],
    memory: &mut [u8],
    sheet: &mut [u32],
) -> usize {
    let case = read_case(bytes);
    fill_memory(memory);
    fill_sheet(sheet);
    let played = performed(&case, after(bytes, CASE_BYTES), memory, sheet);
    told(out, at, line, &case, &played, memory, sheet)
}

// The first count bytes are enough for a case, or they are none.
fn whole(
    out: &mut [u8],
    at: usize,
    line: u64,
    bytes: &[u8],
    count: usize,
    memory: &mut [u8],
    sheet: &mut [u32],
) -> usize {
    if count < CASE_BYTES {
        return unreadable(out, at, line);
    }
    let end = count.min(bytes.len());
    played(out, at, line, &bytes[..end], memory, sheet)
}

// Plays the line with this number and answers the position behind what it puts down.
pub fn play(
    out: &mut [u8],
    at: usize,
    line: u64,
    text: &[u8],
    bytes: &mut [u8; MOST_BYTES],
    memory: &mut [u8],
    sheet: &mut [u32],
) -> usize {
    if LONGEST_LINE < text.len() {
        return unreadable(out, at, line);
    }
    match bench_words::bytes::bytes(word(text, 0), bytes) {
        Ok(n) => whole(out, at, line, bytes, n as usize, memory, sheet),
        Err(_) => unreadable(out, at, line),
    }
}
