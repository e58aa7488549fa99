// The first rule that bad configuration bytes break, in words.
use bench_messages::faults;
use bench_say::say::{NUMBERS, four, one, three, two};
use bench_words::split::between;
use can_config::header::{
    CONTROLLERS_AT, HEADER_SIZE, OBJECTS_AT, VERSION_AT, ZERO_AT, version_of,
};
use can_config::record::{RECORD_SIZE, says_pool};
use can_faults::fault::{Fault, OutlineRule, PoolRule, RecordRule};
use can_faults::find::fault;
use can_faults::stray::stray_bit;
use core_layout::bytes::number_4;
use core_places::at::number_at;

// The bytes of a record that messages show, and where its code and its mask begin.
const CONTROLLER: usize = 0;

const KIND: usize = 1;

const PAYLOAD: usize = 2;

const PADDING: usize = 3;

const CODE: usize = 4;

const POOL: usize = 7;

const MASK: usize = 8;

// Where byte k of an object's record stands; one byte counts the objects.
fn position(object: usize, k: usize) -> usize {
    if 255 < object {
        return k;
    }
    std::num::wrapping_add_usize(HEADER_SIZE + RECORD_SIZE * object, k)
}

// A byte of an object's record; 0 where there is none.
fn byte(bytes: &[u8], object: usize, k: usize) -> u64 {
    number_at(bytes, position(object, k)) as u64
}

// Four bytes of it as a number; 0 where there are none.
fn number(bytes: &[u8], object: usize, k: usize) -> u32 {
    let at = position(object, k);
    let word = between(bytes, at, std::num::wrapping_add_usize(at, 4));
    if word.len() < 4 {
        return 0;
    }
    number_4(word, 0)
}

// The code of an object's record, without the last byte where that says a pool.
fn code(bytes: &[u8], object: usize) -> u32 {
    let word = number(bytes, object, CODE);
    let kind = number_at(bytes, position(object, KIND));
    if says_pool(version_of(bytes), kind) {
        word & 0xFFFFFF00
    } else {
        word
    }
}

// The numbers of a rule of the header or of the whole, in the order of its text.
fn outline_numbers(bytes: &[u8], rule: OutlineRule) -> [u64; NUMBERS] {
    let objects = number_at(bytes, OBJECTS_AT);
    match rule {
        OutlineRule::Mark => [0; NUMBERS],
        OutlineRule::Version => two(
            number_at(bytes, VERSION_AT) as u64,
            number_at(bytes, VERSION_AT + 1) as u64,
        ),
        OutlineRule::Controllers => one(number_at(bytes, CONTROLLERS_AT) as u64),
        OutlineRule::Objects => one(objects as u64),
        OutlineRule::ZeroByte => one(number_at(bytes, ZERO_AT) as u64),
        OutlineRule::Size => {
            let expected = HEADER_SIZE + RECORD_SIZE * objects as usize;
            three(bytes.len() as u64, expected as u64, objects as u64)
        }
    }
}

// The numbers of a rule of an object's record.
fn record_numbers(bytes: &[u8], rule: RecordRule, object: usize) -> [u64; NUMBERS] {
    let h = object as u64;
    let code = code(bytes, object);
    let mask = number(bytes, object, MASK);
    match rule {
        RecordRule::Controller => three(
            h,
            byte(bytes, object, CONTROLLER),
            number_at(bytes, CONTROLLERS_AT) as u64,
        ),
        RecordRule::Kind => two(h, byte(bytes, object, KIND)),
        RecordRule::Payload => two(h, byte(bytes, object, PAYLOAD)),
        RecordRule::ReceivingPadding => two(h, byte(bytes, object, PADDING)),
        RecordRule::Pool => two(h, byte(bytes, object, POOL)),
        RecordRule::SendingCode | RecordRule::CodeBits | RecordRule::StandardCode => {
            two(h, code as u64)
        }
        RecordRule::SendingMask | RecordRule::MaskBits | RecordRule::StandardMask => {
            two(h, mask as u64)
        }
        // The rule says that there is such a bit.
        RecordRule::StrayBit => {
            let bit = stray_bit(code, mask).unwrap_or(0);
            four(h, code as u64, bit as u64, mask as u64)
        }
    }
}

// The numbers of a rule of a pool: what an object has, and what the lowest one of its pool has there.
fn pool_numbers(bytes: &[u8], rule: PoolRule, object: usize, lowest: usize) -> [u64; NUMBERS] {
    let k = match rule {
        PoolRule::Controller => CONTROLLER,
        PoolRule::Payload => PAYLOAD,
        PoolRule::Padding => PADDING,
    };
    [
        object as u64,
        byte(bytes, object, k),
        byte(bytes, lowest, k),
        lowest as u64,
        byte(bytes, object, POOL),
    ]
}

fn numbers(bytes: &[u8], fault: Fault) -> [u64; NUMBERS] {
    match fault {
        Fault::Outline(rule) => outline_numbers(bytes, rule),
        Fault::Record { rule, object } => record_numbers(bytes, rule, object),
        Fault::Pool {
            rule,
            object,
            lowest,
        } => pool_numbers(bytes, rule, object, lowest),
    }
}

// `object 1: payload 9, expected 8 or 64`
pub fn told(out: &mut [u8], at: usize, bytes: &[u8]) -> usize {
    match fault(bytes) {
        Ok(()) => faults::no_fault(out, at),
        Err(fault) => faults::fault(out, at, fault, numbers(bytes, fault)),
    }
}
