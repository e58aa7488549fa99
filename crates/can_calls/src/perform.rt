// One call of the driver. Every function here owes what `perform` owes: the outcome that the rules define for the request.
ghost use Rattle.std.specs.Prelude.{◌≡◌, [], length};
ghost use Rattle.rules.specs.Calls as rules;
ghost use Rattle.rules.specs.Can.{can_format};
ghost use Rattle.rules.specs.Chip.{chip};
ghost use Rattle.can_state.specs.View.{view};
ghost use Rattle.core_answers.specs.Answer.{verdict_reason};
ghost use Rattle.core_answers.specs.Performed.{Performed};
ghost use Rattle.core_answers.specs.Reply.{question_of, question_answer};
ghost use Rattle.can_calls.specs.Answer.{answer_of};
ghost use Rattle.can_calls.specs.Request.{handle, frame, outcome, kind, SERVICE, POLL, EVENT};

use crate::answer::{Answer, arrival_answer, next_answer, question_answer, write_answer};
use crate::request::{Function, Request};
use can::{Called, Question, State, Verdict};
use std::marker::Model;

// What came of a call.
#[derive(Clone, Copy)]
pub struct Played {
    pub state: State,
    pub verdict: Verdict,
    pub answer: Answer,
    pub notifications: usize,
}

// The model forgets nothing, so that one value can go into two calls.
impl Model for Played {
    ghost use Rattle.can_calls.specs.Came.{Came};

    ghost Value = { Came };

    ghost view = { λ a. record {
      state = a.state;
      verdict = a.verdict;
      answer = a.answer;
      notifications = a.notifications;
    } };

    ghost inverse = { λ p. record {
      state = p.state;
      verdict = p.verdict;
      answer = p.answer;
      notifications = p.notifications;
    } };
}

// What came of a call that answers this.
fn answered<T: Copy>(called: Called<T>, answer: Answer) -> Played
    ensures { (result.state ≡ called.state) × (verdict_reason result.verdict ≡ verdict_reason called.reply) × (result.answer ≡ answer)
        × (result.notifications ≡ called.notifications) }
{
    Played {
        state: called.state,
        verdict: can::verdict(called.reply),
        answer,
        notifications: called.notifications,
    }
}

// A call that answers a verdict alone.
fn with_verdict(called: Called<()>) -> Played
    ensures { result ≡ record { state = called.state; verdict = called.reply; answer = Answer.Nothing; notifications = called.notifications } }
{
    Played {
        state: called.state,
        verdict: called.reply,
        answer: Answer::Nothing,
        notifications: called.notifications,
    }
}

// A question of a controller, which takes no memory.
fn ask(state: State, sheet: &mut [u32], question: Question, controller: u32) -> Called<u8>
    ensures { Performed (rules.ask_controller chip can_format (question_of question) (view state) (length sheet.old) [] controller)
        (verdict_reason result.reply) (question_answer question result.reply) (view result.state) result.notifications [] sheet.old sheet.new }
{
    match question {
        Question::Mode => can::get_controller_mode(state, sheet, controller),
        Question::ErrorState => can::get_controller_error_state(state, sheet, controller),
        Question::RxErrors => can::get_controller_rx_error_counter(state, sheet, controller),
        Question::TxErrors => can::get_controller_tx_error_counter(state, sheet, controller),
    }
}

// The same, with its verdict and its answer.
fn get(state: State, sheet: &mut [u32], question: Question, controller: u32) -> Played
    ensures { Performed (rules.ask_controller chip can_format (question_of question) (view state) (length sheet.old) [] controller)
        (verdict_reason result.verdict) (answer_of result.answer) (view result.state) result.notifications [] sheet.old sheet.new }
{
    let asked = ask(state, sheet, question, controller);
    answered(asked, question_answer(question, asked.reply))
}

// Write.
fn write(state: State, ram: &mut [u8], sheet: &mut [u32], data: &[u8], request: Request) -> Played
    ensures { Performed
        (rules.write chip can_format (view state) (length sheet.old) ram.old request.object (handle request)
        (frame request «data».now))
        (verdict_reason result.verdict) (answer_of result.answer) (view result.state) result.notifications ram.new sheet.old sheet.new }
{
    let handle = (request.number % 65536) as u16;
    let written = can::write(
        state,
        ram,
        sheet,
        request.object,
        handle,
        request.identifier,
        data,
    );
    answered(written, write_answer(written.reply))
}

// Arrived.
fn arrived(state: State, ram: &mut [u8], sheet: &mut [u32], data: &[u8], request: Request) -> Played
    ensures { Performed
        (rules.frame_arrived chip can_format (view state) (length sheet.old) ram.old request.controller
        (frame request «data».now))
        (verdict_reason result.verdict) (answer_of result.answer) (view result.state) result.notifications ram.new sheet.old sheet.new }
{
    let arrived = can::frame_arrived(
        state,
        ram,
        sheet,
        request.controller,
        request.identifier,
        data,
    );
    answered(arrived, arrival_answer(arrived.reply))
}

// Who sends next, which changes nothing.
fn next(state: State, ram: &[u8], controller: u32) -> Played
    ensures { Performed (rules.next_to_send chip can_format (view state) ram.now controller)
        (verdict_reason result.verdict) (answer_of result.answer) (view result.state) result.notifications ram.now [] [] }
{
    let unchanged = state;
    let reply = can::next_to_send(state, ram, controller);
    Played {
        state: unchanged,
        verdict: can::verdict(reply),
        answer: next_answer(reply),
        notifications: 0,
    }
}

// The rules.
fn service(state: State, ram: &mut [u8], sheet: &mut [u32], data: &[u8], request: Request) -> Played
    requires { kind request.function ≡ SERVICE }
    ensures { Performed (outcome request «data».now (view state) (length sheet.old) ram.old)
        (verdict_reason result.verdict) (answer_of result.answer) (view result.state) result.notifications ram.new sheet.old sheet.new }
{
    let function = request.function;
    match function {
        Function::Init => with_verdict(can::init(state, ram, sheet, data)),
        Function::DeInit => with_verdict(can::deinit(state, ram, sheet)),
        Function::Set => with_verdict(can::set_controller_mode(
            state,
            sheet,
            request.controller,
            request.number,
        )),
        Function::Get => get(state, sheet, Question::Mode, request.controller),
        Function::ErrorState => get(state, sheet, Question::ErrorState, request.controller),
        Function::RxErrors => get(state, sheet, Question::RxErrors, request.controller),
        Function::TxErrors => get(state, sheet, Question::TxErrors, request.controller),
        _ => write(state, ram, sheet, data, request),
    }
}

// The polls, which leave the memory as it is.
#[tactic(auto, using(crate::proofs::Laws::told), unfolding(crate::specs::Request::outcome_of))]
fn poll(state: State, ram: &[u8], sheet: &mut [u32], data: &[u8], request: Request) -> Played
    requires { kind request.function ≡ POLL }
    ensures { Performed (outcome request «data».now (view state) (length sheet.old) ram.now)
        (verdict_reason result.verdict) (answer_of result.answer) (view result.state) result.notifications ram.now sheet.old sheet.new }
{
    let function = request.function;
    match function {
        Function::PollWrite => with_verdict(can::main_function_write(state, ram, sheet)),
        Function::PollRead => with_verdict(can::main_function_read(state, ram, sheet)),
        Function::PollMode => with_verdict(can::main_function_mode(state, ram, sheet)),
        _ => with_verdict(can::main_function_bus_off(state, ram, sheet)),
    }
}

// The rules.
fn event(state: State, ram: &mut [u8], sheet: &mut [u32], data: &[u8], request: Request) -> Played
    requires { kind request.function ≡ EVENT }
    ensures { Performed (outcome request «data».now (view state) (length sheet.old) ram.old)
        (verdict_reason result.verdict) (answer_of result.answer) (view result.state) result.notifications ram.new sheet.old sheet.new }
{
    let function = request.function;
    match function {
        Function::Sent => with_verdict(can::tx_complete(state, request.object)),
        Function::BusOff => with_verdict(can::bus_off_detected(state, request.controller)),
        Function::ErrorCounts => with_verdict(can::errors_counted(
            state,
            sheet,
            request.controller,
            request.number,
            request.receive,
        )),
        _ => arrived(state, ram, sheet, data, request),
    }
}

// Makes the call that the request asks for, with the memory and the sheet lent to it and the bytes that it brings.
pub fn perform(
    state: State,
    ram: &mut [u8],
    sheet: &mut [u32],
    data: &[u8],
    request: Request,
) -> Played
    ensures { Performed (outcome request «data».now (view state) (length sheet.old) ram.old)
        (verdict_reason result.verdict) (answer_of result.answer) (view result.state) result.notifications ram.new sheet.old sheet.new }
{
    let function = request.function;
    match function {
        Function::Sent | Function::BusOff | Function::ErrorCounts | Function::Arrived => {
            event(state, ram, sheet, data, request)
        }
        Function::PollWrite | Function::PollRead | Function::PollMode | Function::PollBusOff => {
            poll(state, ram, sheet, data, request)
        }
        Function::Next => next(state, ram, request.controller),
        _ => service(state, ram, sheet, data, request),
    }
}
