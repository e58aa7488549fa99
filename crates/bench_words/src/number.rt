// Words that say a number.
ghost use Rattle.std.specs.Prelude.{◌≡◌};
ghost use Rattle.bench_words.specs.Reading as numbers;

use crate::digit::{all_digits, value};
use crate::reading::Trouble;

// What follows 0x; the whole word where it is missing.
pub fn unprefixed(word: &[u8]) -> &[u8]
    ensures { result.now ≡ numbers.unprefixed word.now }
{
    word.strip_prefix(b"0x").unwrap_or(word)
}

// The base of the digits of a number.
fn base(word: &[u8]) -> u8
    ensures { result ≡ numbers.base_of word.now }
{
    if word.starts_with(b"0x") { 16 } else { 10 }
}

// A number, decimal or 0x hexadecimal; bad is the trouble with a word that is none.
#[tactic(auto, unfolding(crate::specs::Reading::number_or))]
pub fn number_or(word: &[u8], bad: Trouble) -> Result<u32, Trouble>
    ensures { result ≡ numbers.number_or bad word.now }
{
    let base = base(word);
    let digits = unprefixed(word);
    if !all_digits(digits, base) {
        return Err(bad);
    }
    value(digits, base).ok_or(Trouble::NumberTooLarge)
}

// A number, decimal or 0x hexadecimal.
pub fn number(word: &[u8]) -> Result<u32, Trouble>
    ensures { result ≡ numbers.number_of word.now }
{
    number_or(word, Trouble::NotANumber)
}

// A number with a limit of its own; trouble is what is wrong with one above it.
pub fn limited(word: &[u8], limit: u32, trouble: Trouble) -> Result<u32, Trouble>
    ensures { result ≡ numbers.limited_to limit trouble (numbers.number_of word.now) }
{
    let number = number(word)?;
    if limit < number {
        return Err(trouble);
    }
    Ok(number)
}

// A mode by its name or its number.
#[tactic(auto, unfolding(crate::specs::Reading::mode_of))]
pub fn mode(word: &[u8]) -> Result<u32, Trouble>
    ensures { result ≡ numbers.mode_of word.now }
{
    match word {
        b"STARTED" => Ok(1),
        b"STOPPED" => Ok(2),
        b"SLEEP" => Ok(3),
        _ => number_or(word, Trouble::NotAMode),
    }
}
