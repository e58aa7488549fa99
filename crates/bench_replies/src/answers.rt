// What an accepted call answers, in words.
ghost use Rattle.std.specs.Prelude.{◌≡◌};
ghost use Rattle.bench_text.specs.Put.{Put};
ghost use Rattle.bench_say.specs.Say.{said};
ghost use Rattle.bench_replies.specs.Answers.{answer_text, answer_numbers, its_identifier, off_the_bus, counted_off};
ghost use Rattle.bench_replies.specs.Places.{polled_place, verdict_place, answer_place};

use bench_say::say::{NUMBERS, say, say_one};
use can_calls::answer::Answer;
use can_calls::request::Function;

// What a poll tells stands in the lines under it.
fn polled_place(told: usize) -> usize
    ensures { result ≡ polled_place told }
{
    if told == 0 { 3 } else { 0 }
}

// A call that answers nothing but its verdict.
fn verdict_place(function: Function, polled: usize) -> usize
    ensures { result ≡ verdict_place function polled }
{
    match function {
        Function::Init => 1,
        Function::DeInit => 0,
        Function::Set => 2,
        Function::Get => 0,
        Function::ErrorState => 0,
        Function::RxErrors => 0,
        Function::TxErrors => 0,
        Function::Write => 0,
        Function::PollWrite => polled,
        Function::PollRead => polled,
        Function::PollMode => polled,
        Function::PollBusOff => polled,
        Function::Sent => 0,
        Function::BusOff => 0,
        Function::ErrorCounts => 0,
        Function::Arrived => 0,
        Function::Next => 0,
    }
}

fn place(answer: Answer, verdict: usize) -> usize
    ensures { result ≡ answer_place answer verdict }
{
    match answer {
        Answer::Nothing => verdict,
        Answer::Mode(_) => 4,
        Answer::ErrorState(_) => 5,
        Answer::RxErrors(_) => 6,
        Answer::TxErrors(_) => 6,
        Answer::TakenBy(_) => 7,
        Answer::Stored(_) => 8,
        Answer::Unwanted => 9,
        Answer::Lost => 10,
        Answer::SendsNext(_) => 11,
        Answer::Nobody => 12,
    }
}

// The numbers of an answer: those of the configuration in use where nothing else is answered.
fn numbers(answer: Answer, controllers: u64, objects: u64) -> [u64; NUMBERS]
    ensures { result ≡ answer_numbers answer controllers objects }
{
    match answer {
        Answer::Nothing => [controllers, objects, 0, 0, 0],
        Answer::Mode(m) => [m as u64, 0, 0, 0, 0],
        Answer::ErrorState(n) => [n as u64, 0, 0, 0, 0],
        Answer::RxErrors(n) => [n as u64, 0, 0, 0, 0],
        Answer::TxErrors(n) => [n as u64, 0, 0, 0, 0],
        Answer::TakenBy(h) => [h as u64, 0, 0, 0, 0],
        Answer::Stored(h) => [h as u64, 0, 0, 0, 0],
        Answer::Unwanted => [0, 0, 0, 0, 0],
        Answer::Lost => [0, 0, 0, 0, 0],
        Answer::SendsNext(h) => [h as u64, 0, 0, 0, 0],
        Answer::Nobody => [0, 0, 0, 0, 0],
    }
}

// The answer of a call that told so many notifications, with so many controllers and objects configured after it.
pub fn answer(
    out: &mut [u8],
    at: usize,
    answer: Answer,
    function: Function,
    told: usize,
    controllers: u64,
    objects: u64,
) -> usize
    ensures { Put at (said (answer_text answer function told) (answer_numbers answer controllers objects)) out.old out.new result }
{
    let texts = b"accepted|\
        accepted: %c, %o|\
        accepted: waits for the mode poll|\
        accepted: nothing to report|\
        %m|\
        %e|\
        %n|\
        accepted: waits in object %0|\
        stored in object %0|\
        unwanted: no object fits|\
        lost: every object that fits is full|\
        object %0 sends next|\
        nobody waits";
    let place = place(answer, verdict_place(function, polled_place(told)));
    say_one(out, at, texts, place, numbers(answer, controllers, objects))
}

// The frame that is sent next.
pub fn its_identifier(out: &mut [u8], at: usize, identifier: u64) -> usize
    ensures { Put at (its_identifier identifier) out.old out.new result }
{
    say(out, at, b": id %i", [identifier, 0, 0, 0, 0])
}

// Why nobody sends on a controller where somebody may wait.
pub fn off_the_bus(out: &mut [u8], at: usize, controller: u64) -> usize
    ensures { Put at (off_the_bus controller) out.old out.new result }
{
    say(
        out,
        at,
        b"controller %0 is off the bus",
        [controller, 0, 0, 0, 0],
    )
}

// Error counts that take their controller off the bus.
pub fn counted_off(out: &mut [u8], at: usize, controller: u64) -> usize
    ensures { Put at (counted_off controller) out.old out.new result }
{
    say(
        out,
        at,
        b"accepted: controller %0 is off the bus",
        [controller, 0, 0, 0, 0],
    )
}
