// Texts with holes: % and a sign take the next of the numbers, in the form that the sign says. So a message stands in one text, which can
// be read.
//
//     %0 to %9       in decimal, at the right of so many columns
//     %l             in decimal, at the left of nine columns
//     %b %w %c %o    so many bytes, words, controllers or objects
//     %m %e          a mode and an error state by their names
//     %n             an error count as the driver tells it
//     %i %I          an identifier, and one in its column
//     %x %h %H       in hexadecimal, with at least three, two or eight digits
ghost use Rattle.std.specs.Prelude.{◌≡◌};
ghost use Rattle.bench_words.specs.Piece.{piece};
ghost use Rattle.bench_text.specs.Put.{Put};
ghost use Rattle.bench_say.specs.Say as says;

use crate::form::formed;
use bench_text::put::put;
use bench_words::piece::piece;

// The most numbers of a text.
pub const NUMBERS: usize = 5;

// One number, two, three and four.
pub fn one(a: u64) -> [u64; NUMBERS]
    ensures { result ≡ says.five a 0 0 0 0 }
{
    [a, 0, 0, 0, 0]
}

pub fn two(a: u64, b: u64) -> [u64; NUMBERS]
    ensures { result ≡ says.five a b 0 0 0 }
{
    [a, b, 0, 0, 0]
}

pub fn three(a: u64, b: u64, c: u64) -> [u64; NUMBERS]
    ensures { result ≡ says.five a b c 0 0 }
{
    [a, b, c, 0, 0]
}

pub fn four(a: u64, b: u64, c: u64, d: u64) -> [u64; NUMBERS]
    ensures { result ≡ says.five a b c d 0 }
{
    [a, b, c, d, 0]
}

// A text with its numbers; behind the last one each is 0.
pub fn say(out: &mut [u8], at: usize, text: &[u8], numbers: [u64; NUMBERS]) -> usize
    ensures { Put at (says.said_of text.now numbers) out.old out.new result }
{
    let mut end = at;
    let mut left = numbers.iter();
    let mut bytes = text.iter();
    while let Some(byte) = bytes.next() {
        if *byte != b'%' {
            end = put(out, end, &[*byte]);
        } else if let Some(sign) = bytes.next() {
            end = formed(out, end, *sign, left.next().copied().unwrap_or(0));
        }
    }
    end
}

// One of several texts in a row.
pub fn say_one(
    out: &mut [u8],
    at: usize,
    texts: &[u8],
    place: usize,
    numbers: [u64; NUMBERS],
) -> usize
    ensures { Put at (says.said_of (piece place texts.now) numbers) out.old out.new result }
{
    say(out, at, piece(texts, place), numbers)
}
