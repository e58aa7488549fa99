// What is wrong with a line of a script, and what was expected.
ghost use Rattle.std.specs.Prelude.{◌≡◌};
ghost use Rattle.bench_text.specs.Put.{Put};
ghost use Rattle.bench_words.specs.Text.{ascii};
ghost use Rattle.bench_messages.specs.Troubles.{trouble_text, usage_text, command_of, expected_text};
ghost use Rattle.bench_messages.specs.Places.{trouble_place, name_place};

use bench_script::name::Name;
use bench_text::put::put;
use bench_words::piece::piece;
use bench_words::reading::Trouble;

// The texts stand in the order of the variants.
fn place(trouble: Trouble) -> usize
    ensures { result ≡ trouble_place trouble }
{
    trouble as usize
}

// What is wrong with a line.
pub fn trouble(out: &mut [u8], at: usize, trouble: Trouble) -> usize
    ensures { Put at (ascii (trouble_text trouble)) out.old out.new result }
{
    let texts = b"line too long|\
        unknown command|\
        a word is missing|\
        a word too many|\
        not a number|\
        number too large|\
        not an identifier|\
        identifier too long|\
        not hex digits|\
        odd number of digits|\
        not one byte|\
        not a mode|\
        unknown poll|\
        handle too large|\
        sheet too long|\
        memory too long|\
        room too large|\
        does not fit a byte|\
        unexpected word|\
        unknown kind of object|\
        too many objects";
    put(out, at, piece(texts, place(trouble)))
}

// The text where a line names no command stands behind those of the commands.
fn place_of(name: Option<Name>) -> usize
    ensures { result ≡ name_place name }
{
    match name {
        Some(name) => name as usize,
        None => Name::Object as usize + 1,
    }
}

// The words of a command; its names where there is none.
fn usage(out: &mut [u8], at: usize, name: Option<Name>) -> usize
    ensures { Put at (ascii (usage_text name)) out.old out.new result }
{
    let texts = b"init BYTES, or init alone|\
        deinit|\
        set CONTROLLER MODE|\
        get CONTROLLER|\
        errorstate CONTROLLER|\
        rxerrors CONTROLLER|\
        txerrors CONTROLLER|\
        write OBJECT HANDLE ID BYTES|\
        poll write, poll read, poll mode or poll busoff|\
        sent OBJECT|\
        busoff CONTROLLER|\
        errors CONTROLLER TRANSMIT RECEIVE|\
        arrived CONTROLLER ID BYTES|\
        next CONTROLLER|\
        data OBJECT|\
        sheet WORDS|\
        memory BYTES|\
        show OBJECT|\
        state|\
        config VERSION ROOM|\
        controllers COUNT|\
        object send controller C payload P padding XX, the same with pool N behind it, or object receive controller C payload P code ID mask ID|\
        init, controllers, object, deinit, set, get, errorstate, rxerrors, txerrors, write, poll, sent, busoff, errors, arrived, next, data, sheet, memory, show, state or config";
    put(out, at, piece(texts, place_of(name)))
}

// The command whose words were expected, where the trouble is with the whole of one.
fn command_of(trouble: Trouble, name: Option<Name>) -> Option<Name>
    ensures { result ≡ command_of trouble name }
{
    match trouble {
        Trouble::UnknownPoll => Some(Name::Poll),
        Trouble::UnexpectedWord => Some(Name::Object),
        _ => name,
    }
}

// What was expected of a line that begins with a command's name: the words of a command where no word is at fault.
pub fn expected(out: &mut [u8], at: usize, trouble: Trouble, name: Option<Name>) -> usize
    ensures { Put at (ascii (expected_text trouble name)) out.old out.new result }
{
    let texts = b"at most 8192 bytes|\
        |\
        |\
        |\
        decimal digits, or 0x and hex digits|\
        at most 4294967295|\
        hex digits, with or without 0x|\
        at most 8 hex digits|\
        hex digits in pairs, or - alone for none|\
        two hex digits for each byte|\
        two hex digits|\
        STARTED, STOPPED, SLEEP or a number|\
        |\
        at most 65535|\
        at most 4096 words|\
        at most 16384 bytes|\
        at most 4096 bytes|\
        at most 255|\
        |\
        send or receive|\
        at most 255";
    let word = piece(texts, place(trouble));
    if word.len() == 0 {
        return usage(out, at, command_of(trouble, name));
    }
    put(out, at, word)
}
