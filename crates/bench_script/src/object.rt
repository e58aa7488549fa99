// An object of a configuration in words: what stands behind `object`.
ghost use Rattle.std.specs.Prelude.{◌≡◌, Ok, Err, MatchResult};
ghost use Rattle.bench_script.specs.Object as objects;

use crate::command::{Command, LARGEST_BYTE};
use crate::count::ends_at;
use bench_words::bytes::one_byte;
use bench_words::identifier::identifier;
use bench_words::number::limited;
use bench_words::reading::Trouble;
use bench_words::split::{after, first, word};

// A number that fits a byte.
fn small(word: &[u8]) -> Result<u32, Trouble>
    ensures { result ≡ objects.small_of word.now }
{
    limited(word, LARGEST_BYTE, Trouble::ByteTooLarge)
}

// The word behind a fixed word.
fn field<'a>(text: &'a [u8], keyword: &[u8]) -> Result<&'a [u8], Trouble>
    ensures { MatchResult result (λ w. Ok w.now ≡ objects.field_of keyword.now text.now) (λ t. Err t ≡ objects.field_of keyword.now text.now) }
{
    if first(text) != keyword {
        return Err(Trouble::UnexpectedWord);
    }
    Ok(first(after(text)))
}

// What stands behind a field.
fn behind(text: &[u8]) -> &[u8]
    ensures { result.now ≡ objects.behind_field text.now }
{
    after(after(text))
}

// controller C payload P, with which each object begins
fn common(text: &[u8]) -> Result<(u32, u32), Trouble>
    ensures { result ≡ objects.common_of text.now }
{
    let controller = small(field(text, b"controller")?)?;
    let payload = small(field(behind(text), b"payload")?)?;
    Ok((controller, payload))
}

// What stands behind it.
fn behind_common(text: &[u8]) -> &[u8]
    ensures { result.now ≡ objects.behind_common text.now }
{
    behind(behind(text))
}

// send controller C payload P padding XX
fn send(text: &[u8]) -> Result<Command, Trouble>
    ensures { result ≡ objects.send_of text.now }
{
    ends_at(text, 5)?;
    let (controller, payload) = common(text)?;
    let padding = one_byte(field(behind_common(text), b"padding")?)?;
    Ok(Command::Send {
        controller,
        payload,
        padding,
    })
}

// send controller C payload P padding XX pool N
fn pooled(text: &[u8]) -> Result<Command, Trouble>
    ensures { result ≡ objects.pooled_of text.now }
{
    ends_at(text, 7)?;
    let (controller, payload) = common(text)?;
    let rest = behind_common(text);
    let padding = one_byte(field(rest, b"padding")?)?;
    let pool = small(field(behind(rest), b"pool")?)?;
    Ok(Command::SendInPool {
        controller,
        payload,
        padding,
        pool,
    })
}

// receive controller C payload P code ID mask ID
fn receive(text: &[u8]) -> Result<Command, Trouble>
    ensures { result ≡ objects.receive_of text.now }
{
    ends_at(text, 7)?;
    let (controller, payload) = common(text)?;
    let rest = behind_common(text);
    let code = identifier(field(rest, b"code")?)?;
    let mask = identifier(field(behind(rest), b"mask")?)?;
    Ok(Command::Receive {
        controller,
        payload,
        code,
        mask,
    })
}

// send .. or receive ..: a word behind the padding of one that sends says that a pool follows.
#[tactic(auto, unfolding(crate::specs::Object::object_of))]
pub fn object(text: &[u8]) -> Result<Command, Trouble>
    ensures { result ≡ objects.object_of text.now }
{
    let rest = after(text);
    match first(text) {
        b"send" => {
            if word(rest, 6).is_empty() {
                send(rest)
            } else {
                pooled(rest)
            }
        }
        b"receive" => receive(rest),
        _ => Err(Trouble::UnknownKind),
    }
}
