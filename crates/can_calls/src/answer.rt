// What a call answers beyond its verdict, for every call alike.
ghost use Rattle.std.specs.Prelude.{◌≡◌};
ghost use Rattle.core_answers.specs.Reply as replies;
ghost use Rattle.can_calls.specs.Answer.{answer_of, number_told};

use can::{Arrival, ArrivalReply, NextReply, Question, QuestionReply, WriteReply};

#[derive(Clone, Copy)]
pub enum Answer {
    Nothing,
    Mode(u32),
    ErrorState(u32),
    RxErrors(u32),
    TxErrors(u32),
    TakenBy(u32),
    Stored(u32),
    Unwanted,
    Lost,
    SendsNext(u32),
    Nobody,
}

// The number that a question of a controller is answered with: 0 with a no.
fn number_told(reply: QuestionReply) -> u32
    ensures { result ≡ number_told reply }
{
    match reply {
        Ok(n) => n as u32,
        Err(_) => 0,
    }
}

pub fn question_answer(question: Question, reply: QuestionReply) -> Answer
    ensures { answer_of result ≡ replies.question_answer question reply }
{
    let number = number_told(reply);
    match question {
        Question::Mode => Answer::Mode(number),
        Question::ErrorState => Answer::ErrorState(number),
        Question::RxErrors => Answer::RxErrors(number),
        Question::TxErrors => Answer::TxErrors(number),
    }
}

pub fn write_answer(reply: WriteReply) -> Answer
    ensures { answer_of result ≡ replies.write_answer reply }
{
    match reply {
        Ok(h) => Answer::TakenBy(h),
        Err(_) => Answer::Nothing,
    }
}

pub fn arrival_answer(reply: ArrivalReply) -> Answer
    ensures { answer_of result ≡ replies.arrival_answer reply }
{
    match reply {
        Ok(Arrival::Stored(h)) => Answer::Stored(h),
        Ok(Arrival::Unwanted) => Answer::Unwanted,
        Ok(Arrival::Lost) => Answer::Lost,
        Err(_) => Answer::Nothing,
    }
}

pub fn next_answer(reply: NextReply) -> Answer
    ensures { answer_of result ≡ replies.next_answer reply }
{
    match reply {
        Ok(Some(h)) => Answer::SendsNext(h),
        Ok(None) => Answer::Nobody,
        Err(_) => Answer::Nothing,
    }
}
