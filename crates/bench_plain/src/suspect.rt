// The word that is wrong with a line that was not understood, so that it can be found in the script, and what may have been meant.
use bench_messages::lines;
use bench_script::command::LARGEST_BYTE;
use bench_script::name::Name;
use bench_words::digit::all_digits;
use bench_words::identifier::identifier;
use bench_words::number::number;
use bench_words::reading::Trouble;
use bench_words::split::{Span, between, next_word, word, word_at};

// How much of a word is shown.
const SHOWN: usize = 24;

// Whether a word says a number that fits a byte.
fn is_small(word: &[u8]) -> bool {
    number(word).is_ok_and(|n| n <= LARGEST_BYTE)
}

// The controller, the payload or the pool.
fn bad_number_of_object(line: &[u8]) -> usize {
    if !is_small(word(line, 3)) {
        return 3;
    }
    if !is_small(word(line, 5)) {
        return 5;
    }
    9
}

// The controller or one of the two counts.
fn bad_number_of_errors(line: &[u8]) -> usize {
    if number(word(line, 1)).is_err() {
        return 1;
    }
    if number(word(line, 2)).is_err() {
        return 2;
    }
    3
}

// The first number of a line that is none, or too large.
fn bad_number(name: Option<Name>, line: &[u8]) -> usize {
    match name {
        Some(Name::Object) => bad_number_of_object(line),
        Some(Name::Errors) => bad_number_of_errors(line),
        Some(Name::Controllers) => 1,
        _ => { if number(word(line, 1)).is_ok() { 2 } else { 1 } }
    }
}

// The identifier of a frame, or the first code or mask of an object that is none.
fn bad_identifier(name: Option<Name>, line: &[u8]) -> usize {
    match name {
        Some(Name::Write) => 3,
        Some(Name::Object) => {
            if identifier(word(line, 7)).is_ok() {
                9
            } else {
                7
            }
        }
        _ => 2,
    }
}

// Where the bytes of a line begin, and how many words of them are looked at.
fn first_byte(name: Option<Name>) -> usize {
    match name {
        Some(Name::Init) => 1,
        Some(Name::Write) => 4,
        Some(Name::Object) => 7,
        _ => 3,
    }
}

const LOOKED_AT: usize = 4096;

// Whether a word is whole bytes.
fn is_bytes(word: &[u8]) -> bool {
    all_digits(word, 16) & (word.len() % 2 == 0)
}

// The first of the words that say bytes which does not; they begin with this one.
fn bad_byte(line: &[u8], first: Span) -> Span {
    let mut span = first;
    for _ in 0..LOOKED_AT {
        if !is_bytes(between(line, span.start, span.end)) {
            return span;
        }
        span = next_word(line, span.end);
    }
    span
}

// The fixed word that another one stands for.
fn unexpected(line: &[u8]) -> usize {
    if word(line, 2) != b"controller".as_slice() {
        return 2;
    }
    if word(line, 4) != b"payload".as_slice() {
        return 4;
    }
    let third = match word(line, 1) {
        b"receive" => b"code".as_slice(),
        _ => b"padding".as_slice(),
    };
    if word(line, 6) == third { 8 } else { 6 }
}

// The first word too many.
fn too_many(name: Option<Name>) -> usize {
    match name {
        Some(Name::Object) => 10,
        Some(Name::Errors) => 4,
        Some(Name::Set | Name::Config) => 3,
        Some(Name::DeInit | Name::State) => 1,
        _ => 2,
    }
}

// Which word is wrong, or where the bytes begin of which one is; none where the trouble is with the whole line.
fn place(trouble: Trouble, name: Option<Name>, line: &[u8]) -> Option<usize> {
    match trouble {
        Trouble::UnknownCommand => Some(0),
        Trouble::WordTooMany => Some(too_many(name)),
        Trouble::NotANumber | Trouble::NumberTooLarge | Trouble::ByteTooLarge => Some(bad_number(
            name, line,
        )),
        Trouble::NotAnIdentifier | Trouble::IdentifierTooLong => Some(bad_identifier(name, line)),
        Trouble::NotHexDigits | Trouble::OddDigits => Some(first_byte(name)),
        Trouble::NotOneByte => Some(7),
        Trouble::UnexpectedWord => Some(unexpected(line)),
        Trouble::NotAMode | Trouble::HandleTooLarge | Trouble::RoomTooLarge => Some(2),
        Trouble::UnknownPoll
        | Trouble::SheetTooLong
        | Trouble::MemoryTooLong
        | Trouble::UnknownKind => Some(1),
        Trouble::LineTooLong | Trouble::WordMissing | Trouble::TooManyObjects => None,
    }
}

// Where the word that is wrong stands.
fn wrong(trouble: Trouble, name: Option<Name>, line: &[u8]) -> Option<Span> {
    let span = word_at(line, place(trouble, name, line)?);
    match trouble {
        Trouble::NotHexDigits | Trouble::OddDigits => Some(bad_byte(line, span)),
        _ => Some(span),
    }
}

// Whether each byte has a sign of its own on paper.
fn all_printable(text: &[u8]) -> bool {
    text.iter().all(|b| b.is_ascii_graphic())
}

// The beginning of the word that is wrong.
pub fn shown(
    out: &mut [u8],
    at: usize,
    trouble: Trouble,
    name: Option<Name>,
    line: &[u8],
) -> usize {
    let Some(span) = wrong(trouble, name, line) else {
        return at;
    };
    let word = between(line, span.start, span.end);
    if word.is_empty() {
        return at;
    }
    let end = SHOWN.min(word.len());
    let start = &word[..end];
    lines::quoted(out, at, start, all_printable(start))
}

// The byte order mark, which some editors write at the start of a file.
const MARK: [u8; 3] = [0xEF, 0xBB, 0xBF];

// What may have been meant.
pub fn guessed(out: &mut [u8], at: usize, line: &[u8]) -> usize {
    if line.starts_with(&MARK) {
        return lines::order_mark(out, at);
    }
    if line.contains(&b'\r') {
        return lines::lone_cr(out, at);
    }
    at
}
