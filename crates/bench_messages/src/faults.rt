// The first rule that a configuration's bytes break, in words.
ghost use Rattle.std.specs.Prelude.{◌≡◌};
ghost use Rattle.bench_words.specs.Text.{ascii};
ghost use Rattle.bench_text.specs.Put.{Put};
ghost use Rattle.bench_say.specs.Say.{said, five};
ghost use Rattle.bench_messages.specs.Faults as faults;

use bench_say::say::{NUMBERS, say};
use can_faults::fault::{Fault, OutlineRule, PoolRule, RecordRule};

fn outline_text(rule: OutlineRule) -> &'static [u8]
    ensures { result.now ≡ ascii (faults.outline_text rule) }
{
    match rule {
        OutlineRule::Mark => b"the first three bytes are not 43 48 42",
        OutlineRule::Version => b"version %0 %0, expected 0 1 or 0 2",
        OutlineRule::Controllers => b"%c, expected 1 to 4",
        OutlineRule::Objects => b"%o, expected at most 32",
        OutlineRule::ZeroByte => b"byte 7 is %h, expected 00",
        OutlineRule::Size => b"%b, expected %0 for %o",
    }
}

fn record_text(rule: RecordRule) -> &'static [u8]
    ensures { result.now ≡ ascii (faults.record_text rule) }
{
    match rule {
        RecordRule::Controller => b"object %0: controller %0, expected below %0",
        RecordRule::Kind => b"object %0: kind %0, expected 0 to send or 1 to receive",
        RecordRule::Payload => b"object %0: payload %0, expected 8 or 64",
        RecordRule::SendingCode => b"object %0: code %x, expected 0 where it sends",
        RecordRule::SendingMask => b"object %0: mask %x, expected 0 where it sends",
        RecordRule::Pool => b"object %0: pool %0, expected 0 to 31",
        RecordRule::ReceivingPadding => b"object %0: padding %h, expected 00 where it receives",
        RecordRule::CodeBits => b"object %0: code %x, expected bits 30 and 29 clear",
        RecordRule::MaskBits => b"object %0: mask %x, expected bits 31 to 29 clear",
        RecordRule::StandardCode =>
            b"object %0: code %x, expected bits 28 to 11 clear where bit 31 is",
        RecordRule::StandardMask =>
            b"object %0: mask %x, expected bits 28 to 11 clear where the code's bit 31 is",
        RecordRule::StrayBit => b"object %0: code %x, expected bit %0 clear as in mask %x",
    }
}

fn pool_text(rule: PoolRule) -> &'static [u8]
    ensures { result.now ≡ ascii (faults.pool_text rule) }
{
    match rule {
        PoolRule::Controller => b"object %0: controller %0, expected %0 as object %0 of pool %0",
        PoolRule::Payload => b"object %0: payload %0, expected %0 as object %0 of pool %0",
        PoolRule::Padding => b"object %0: padding %h, expected %h as object %0 of pool %0",
    }
}

fn text(fault: Fault) -> &'static [u8]
    ensures { result.now ≡ ascii (faults.fault_text fault) }
{
    match fault {
        Fault::Outline(rule) => outline_text(rule),
        Fault::Record { rule, .. } => record_text(rule),
        Fault::Pool { rule, .. } => pool_text(rule),
    }
}

// `object 1: payload 9, expected 8 or 64`
pub fn fault(out: &mut [u8], at: usize, fault: Fault, numbers: [u64; NUMBERS]) -> usize
    ensures { Put at (said (faults.fault_text fault) numbers) out.old out.new result }
{
    say(out, at, text(fault), numbers)
}

// No rule is broken.
pub fn no_fault(out: &mut [u8], at: usize) -> usize
    ensures { Put at (said faults.no_fault_text (five 0 0 0 0 0)) out.old out.new result }
{
    say(out, at, b"no rule is broken", [0; NUMBERS])
}
