// Digits, and the value that a run of them spells.
ghost use Rattle.std.specs.Prelude.{◌≡◌, ◌+◌, ◌*◌, ◌≤◌, ◌^◌, min};
ghost use Rattle.bench_words.specs.Reading as numbers;

// The value of a digit, upper or lower case. Any other byte counts as 16, more than a digit of any base: what `all_digits` and `value` say, they
// say of all bytes.
#[tactic(auto, unfolding(crate::specs::Reading::digit))]
pub fn digit(b: u8) -> u8
    ensures value { result ≡ numbers.digit b }
    ensures within { result ≤ 16 }
{
    match b {
        b'0'..=b'9' => b - b'0',
        b'a'..=b'f' => b - b'a' + 10,
        b'A'..=b'F' => b - b'A' + 10,
        _ => 16,
    }
}

// Whether the word has digits and nothing else. All bytes are looked at: a test that ends at the first other byte takes twice the time.
#[tactic(auto, using(std::proofs::lemmas::List::Folds::list_all_more), unfolding(crate::specs::Reading::all_digits))]
pub fn all_digits(word: &[u8], base: u8) -> bool
    ensures { result ≡ numbers.all_digits base word.now }
{
    let mut ok = !word.is_empty();
    for b in word {
        ok = ok & (digit(*b) < base);
    }
    ok
}

// A value with one more digit behind it, where that is a number that a word can say.
fn appended(value: u32, base: u8, digit: u8) -> Option<u32>
    ensures { result ≡ numbers.sayable (value * base + digit) }
{
    value.checked_mul(base as u32)?.checked_add(digit as u32)
}

// The value that the digits spell, the highest first, where it is a number that a word can say.
#[tactic(auto, unfolding(crate::specs::Reading::value))]
pub fn value(word: &[u8], base: u8) -> Option<u32>
    ensures { result ≡ numbers.sayable (numbers.value base word.now) }
{
    let mut value = 0;
    for b in word {
        value = appended(value, base, digit(*b))?;
    }
    Some(value)
}

// The same, or one more than the largest number that a word can say if that is less.
#[tactic(auto, using(crate::proofs::Digits::said, crate::proofs::Digits::unsaid))]
pub fn limited_value(word: &[u8], base: u8) -> u64
    ensures { result ≡ min (numbers.value base word.now) (2 ^ 32) }
{
    value(word, base).map_or(u32::MAX as u64 + 1, |n| n as u64)
}
