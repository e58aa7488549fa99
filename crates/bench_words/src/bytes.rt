// Words that say bytes: hex digits in pairs, in one word or several, or - for none.
ghost use Rattle.std.specs.Prelude.{◌≡◌, ◌+◌, ◌*◌, ◌≤◌, length, []};
ghost use Rattle.rules.specs.Bytes.{splice};
ghost use Rattle.bench_words.specs.Reading as numbers;

use crate::digit::{all_digits, digit};
use crate::reading::Trouble;
use crate::split::{between, first, next_word, word};

// The longest line that is read.
pub const LONGEST_LINE: usize = 8192;

// The most bytes that a line can say.
pub const MOST_BYTES: usize = LONGEST_LINE / 2;

// How many bytes the word says, or the trouble with it.
#[tactic(auto, unfolding(crate::specs::Reading::byte_count_of))]
fn byte_count(word: &[u8]) -> Result<usize, Trouble>
    ensures { result ≡ numbers.byte_count_of word.now }
{
    if !all_digits(word, 16) {
        return Err(Trouble::NotHexDigits);
    }
    if word.len() % 2 != 0 {
        return Err(Trouble::OddDigits);
    }
    Ok(word.len() / 2)
}

// The byte that two digits say.
#[tactic(auto, unfolding(crate::specs::Reading::pair))]
fn pair(high: u8, low: u8) -> u8
    ensures { result ≡ numbers.pair high low }
{
    let high = digit(high) as u32;
    let low = digit(low) as u32;
    ((high * 16 + low) % 256) as u8
}

// Puts the byte of each pair of digits into out, from position at on.
#[tactic(auto, unfolding(crate::specs::Reading::hex_pairs, rules::specs::Repeat::list_below, rules::specs::Bytes::splice))]
fn put_pairs(word: &[u8], out: &mut [u8], at: usize)
    requires { 2 * at + length word.now ≤ 2 * length out.old }
    ensures { out.new ≡ splice at (numbers.hex_pairs word.now) out.old }
{
    let (pairs, _) = word.as_chunks::<2>();
    for (i, [high, low]) in pairs.iter().enumerate() {
        out[at + i] = pair(*high, *low);
    }
}

// Puts the bytes of one word after the other at the start of out, up to a word that can't be read.
fn put_words(text: &[u8], out: &mut [u8]) -> Result<u32, Trouble>
    requires { (length text.now ≤ numbers.longest_line) × (length text.now ≤ 2 * length out.old) }
    ensures { numbers.BytesRead (numbers.bytes_from (length text.now) text.now 0 []) out.old out.new result }
{
    let mut at = 0;
    let mut count = 0;
    // A text has no more words than bytes.
    for _ in 0..text.len() {
        let span = next_word(text, at);
        let word = between(text, span.start, span.end);
        if word.is_empty() {
            return Ok(count as u32);
        }
        let bytes = byte_count(word)?;
        put_pairs(word, out, count);
        count += bytes;
        at = span.end;
    }
    Ok(count as u32)
}

// Whether a text says - alone.
fn is_none(text: &[u8]) -> bool
    ensures { result ≡ numbers.is_none text.now }
{
    first(text) == b"-".as_slice() && word(text, 1).is_empty()
}

// Puts the bytes that the words of a text say at the start of out, and answers how many there are, or the trouble with the first word that
// can't be read.
#[tactic(auto, unfolding(crate::specs::Reading::bytes_of, rules::specs::Bytes::splice))]
pub fn bytes(text: &[u8], out: &mut [u8; MOST_BYTES]) -> Result<u32, Trouble>
    ensures { numbers.BytesRead (numbers.bytes_of text.now) out.old out.new result }
{
    if LONGEST_LINE < text.len() {
        return Err(Trouble::LineTooLong);
    }
    if is_none(text) {
        return Ok(0);
    }
    put_words(text, out)
}

// One byte, of two digits.
#[tactic(auto, unfolding(crate::specs::Reading::one_byte_of))]
pub fn one_byte(word: &[u8]) -> Result<u32, Trouble>
    ensures { result ≡ numbers.one_byte_of word.now }
{
    if !all_digits(word, 16) {
        return Err(Trouble::NotHexDigits);
    }
    let [high, low] = word else {
        return Err(Trouble::NotOneByte);
    };
    Ok(pair(*high, *low) as u32)
}
