// The line that a case prints: `LINE CODE REASON ANSWER COUNT STATE MEMORY SHEET`.
use bench_say::form::numbered;
use bench_text::put::{put, put_decimal};
use can::Verdict;
use can_calls::answer::Answer;

fn answer(out: &mut [u8], at: usize, answer: Answer) -> usize {
    match answer {
        Answer::Nothing => put(out, at, b" -"),
        Answer::Mode(m) => numbered(out, at, b" ", m as u64),
        Answer::ErrorState(n) => numbered(out, at, b" ", n as u64),
        Answer::RxErrors(n) => numbered(out, at, b" ", n as u64),
        Answer::TxErrors(n) => numbered(out, at, b" ", n as u64),
        Answer::TakenBy(h) => numbered(out, at, b" ", h as u64),
        Answer::Stored(h) => numbered(out, at, b" stored:", h as u64),
        Answer::Unwanted => put(out, at, b" unwanted"),
        Answer::Lost => put(out, at, b" lost"),
        Answer::SendsNext(h) => numbered(out, at, b" ", h as u64),
        Answer::Nobody => put(out, at, b" none"),
    }
}

fn change(out: &mut [u8], at: usize, same: bool) -> usize {
    if same {
        return put(out, at, b" same");
    }
    put(out, at, b" changed")
}

// The number of the line, and what the call answered.
pub fn answered(
    out: &mut [u8],
    at: usize,
    line: u64,
    verdict: Verdict,
    replied: Answer,
    notifications: usize,
) -> usize {
    let mut end = put_decimal(out, at, line);
    end = numbered(out, end, b" ", can::return_code(verdict) as u64);
    end = numbered(out, end, b" ", can::verdict_reason(verdict) as u64);
    end = answer(out, end, replied);
    numbered(out, end, b" ", notifications as u64)
}

// Which of the three things the call left as they were.
pub fn changes(out: &mut [u8], at: usize, state: bool, memory: bool, sheet: bool) -> usize {
    let mut end = change(out, at, state);
    end = change(out, end, memory);
    end = change(out, end, sheet);
    put(out, end, b"\n")
}

// A line that is no case.
pub fn unreadable(out: &mut [u8], at: usize, line: u64) -> usize {
    let end = put_decimal(out, at, line);
    put(out, end, b" ?\n")
}
