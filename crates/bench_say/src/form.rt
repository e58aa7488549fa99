// The forms of a number in a text. Each goes to position at of out, as much of it as fits, and the answer is the position behind it.
ghost use Rattle.std.specs.Prelude.{◌≡◌, ◌-◌, ◌%◌, ◌^◌, ◌++◌, length};
ghost use Rattle.bench_text.specs.Put.{Put, decimal};
ghost use Rattle.bench_say.specs.Form as forms;

use bench_text::put::{put, put_decimal, put_hex, put_hexadecimal, put_repeated};
use can_frame::identifier::{is_extended, is_fd};

// A number with a word before it.
pub fn numbered(out: &mut [u8], at: usize, word: &[u8], n: u64) -> usize
    ensures { Put at (word.now ++ decimal n) out.old out.new result }
{
    let end = put(out, at, word);
    put_decimal(out, end, n)
}

// Bytes as hex digits, - for none.
pub fn hex_or_none(out: &mut [u8], at: usize, bytes: &[u8]) -> usize
    ensures { Put at (forms.hex_or_none bytes.now) out.old out.new result }
{
    match bytes {
        [] => put(out, at, b"-"),
        _ => put_hex(out, at, bytes),
    }
}

// How many digits a number has in decimal.
#[tactic(auto, using(crate::proofs::Columns::decimal_long))]
fn digits(n: u64) -> usize
    ensures { result ≡ length (decimal n) }
{
    let mut space = [0u8; 20];
    io::decimal(n, &mut space)
}

// A number at the right of so many columns.
#[tactic(auto, unfolding(crate::specs::Form::right))]
pub fn right(out: &mut [u8], at: usize, n: u64, width: usize) -> usize
    ensures { Put at (forms.right width n) out.old out.new result }
{
    let end = put_repeated(out, at, width.saturating_sub(digits(n)), b' ');
    put_decimal(out, end, n)
}

// The spaces behind a text that used so many of its columns.
fn gap(width: usize, used: usize) -> usize
    ensures { result ≡ forms.gap width used }
{
    width.saturating_sub(used).max(2)
}

// Spaces up to the column behind a text that began at start; at least two.
pub fn to_column(out: &mut [u8], at: usize, start: usize, width: usize) -> usize
    ensures { Put at (forms.spaces (forms.gap width (at - start))) out.old out.new result }
{
    put_repeated(out, at, gap(width, at.saturating_sub(start)), b' ')
}

const LINE_WIDTH: usize = 9;

const IDENTIFIER_WIDTH: usize = 23;

// A number at the left of its column.
#[tactic(auto, unfolding(crate::specs::Form::left))]
fn left(out: &mut [u8], at: usize, n: u64) -> usize
    ensures { Put at (forms.left n) out.old out.new result }
{
    let end = put_decimal(out, at, n);
    to_column(out, end, at, LINE_WIDTH)
}

// So many of something: the word takes an s, but for one.
#[tactic(auto, unfolding(crate::specs::Form::count_of))]
fn count_of(out: &mut [u8], at: usize, n: u64, word: &[u8]) -> usize
    ensures { Put at (forms.count_of word.now n) out.old out.new result }
{
    let number = put_decimal(out, at, n);
    let end = put(out, number, word);
    if n == 1 {
        return end;
    }
    put(out, end, b"s")
}

// A mode by its name.
#[tactic(auto, unfolding(crate::specs::Form::mode_name))]
fn mode(out: &mut [u8], at: usize, mode: u64) -> usize
    ensures { Put at (forms.mode_name mode) out.old out.new result }
{
    match mode {
        0 => put(out, at, b"UNINIT"),
        1 => put(out, at, b"STARTED"),
        2 => put(out, at, b"STOPPED"),
        3 => put(out, at, b"SLEEP"),
        _ => numbered(out, at, b"mode ", mode),
    }
}

// An error state by its name.
#[tactic(auto, unfolding(crate::specs::Form::error_state_name))]
fn error_state(out: &mut [u8], at: usize, state: u64) -> usize
    ensures { Put at (forms.error_state_name state) out.old out.new result }
{
    match state {
        0 => put(out, at, b"error active"),
        1 => put(out, at, b"error passive"),
        _ => put(out, at, b"bus-off"),
    }
}

// An error count as the driver tells it: 255 stands for every larger one too.
#[tactic(auto, unfolding(crate::specs::Form::told_count))]
fn told_count(out: &mut [u8], at: usize, n: u64) -> usize
    ensures { Put at (forms.told_count n) out.old out.new result }
{
    match n {
        0..=254 => put_decimal(out, at, n),
        _ => put(out, at, b"255 or more"),
    }
}

// What the marks of an identifier say.
#[tactic(auto, using(bench_text::proofs::Writing::nothing))]
fn marks(out: &mut [u8], at: usize, identifier: u32) -> usize
    ensures { Put at (forms.marks identifier) out.old out.new result }
{
    match (is_extended(identifier), is_fd(identifier)) {
        (true, true) => put(out, at, b" extended FD"),
        (true, false) => put(out, at, b" extended"),
        (false, true) => put(out, at, b" FD"),
        (false, false) => at,
    }
}

// The identifier word in a wider number.
fn word_in(n: u64) -> u32
    ensures { result ≡ n % 2 ^ 32 }
{
    (n % 0x100000000) as u32
}

// An identifier as it is typed, and what its marks say in words.
#[tactic(auto, unfolding(crate::specs::Form::identifier))]
fn identifier(out: &mut [u8], at: usize, n: u64) -> usize
    ensures { Put at (forms.identifier n) out.old out.new result }
{
    let end = put_hexadecimal(out, at, n, 3);
    marks(out, end, word_in(n))
}

// The same in its column.
#[tactic(auto, unfolding(crate::specs::Form::identifier_column))]
fn identifier_column(out: &mut [u8], at: usize, n: u64) -> usize
    ensures { Put at (forms.identifier_column n) out.old out.new result }
{
    let end = identifier(out, at, n);
    to_column(out, end, at, IDENTIFIER_WIDTH)
}

// Whether a sign counts something.
fn is_unit(sign: u8) -> bool
    ensures { result ≡ forms.is_unit sign }
{
    matches!(sign, b'b' | b'w' | b'c' | b'o')
}

// So many bytes, words, controllers or objects.
fn units(out: &mut [u8], at: usize, sign: u8, n: u64) -> usize
    ensures { Put at (forms.count_of (forms.unit sign) n) out.old out.new result }
{
    match sign {
        b'b' => count_of(out, at, n, b" byte"),
        b'w' => count_of(out, at, n, b" word"),
        b'c' => count_of(out, at, n, b" controller"),
        _ => count_of(out, at, n, b" object"),
    }
}

// How many digits a number in hexadecimal has at least.
fn hex_digits(sign: u8) -> usize
    ensures { result ≡ forms.hex_digits sign }
{
    match sign {
        b'h' => 2,
        b'H' => 8,
        _ => 3,
    }
}

// A number in a form that has a letter of its own.
#[tactic(auto, unfolding(crate::specs::Form::named))]
fn named(out: &mut [u8], at: usize, sign: u8, n: u64) -> usize
    ensures { Put at (forms.named sign n) out.old out.new result }
{
    match sign {
        b'l' => left(out, at, n),
        b'm' => mode(out, at, n),
        b'e' => error_state(out, at, n),
        b'n' => told_count(out, at, n),
        b'i' => identifier(out, at, n),
        b'I' => identifier_column(out, at, n),
        _ => put_hexadecimal(out, at, n, hex_digits(sign)),
    }
}

// A number in the form that a sign says.
#[tactic(auto, unfolding(crate::specs::Form::formed))]
pub fn formed(out: &mut [u8], at: usize, sign: u8, n: u64) -> usize
    ensures { Put at (forms.formed sign n) out.old out.new result }
{
    if sign <= b'9' {
        right(out, at, n, usize::from(sign.saturating_sub(b'0')))
    } else if is_unit(sign) {
        units(out, at, sign, n)
    } else {
        named(out, at, sign, n)
    }
}
