// Words that say an identifier: hexadecimal, with or without 0x.
ghost use Rattle.std.specs.Prelude.{◌≡◌};
ghost use Rattle.bench_words.specs.Reading as numbers;

use crate::digit::{all_digits, value};
use crate::number::unprefixed;
use crate::reading::Trouble;

// The most digits of an identifier.
const DIGITS: usize = 8;

#[tactic(auto, unfolding(crate::specs::Reading::identifier_of))]
pub fn identifier(word: &[u8]) -> Result<u32, Trouble>
    ensures { result ≡ numbers.identifier_of word.now }
{
    let digits = unprefixed(word);
    if !all_digits(digits, 16) {
        return Err(Trouble::NotAnIdentifier);
    }
    if DIGITS < digits.len() {
        return Err(Trouble::IdentifierTooLong);
    }
    Ok(value(digits, 16).unwrap())
}
