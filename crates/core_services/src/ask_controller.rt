// What is asked of a controller: its mode by GetControllerMode, its error state and its error counts by services of their own.
ghost use Rattle.std.specs.Prelude.{◌≡◌, List, ℕ};
ghost use Rattle.rules.specs.Services as rules;
ghost use Rattle.core_places.specs.View.{view_controller, view_errors};
ghost use Rattle.core_answers.specs.Answer.{verdict_reason};
ghost use Rattle.core_answers.specs.Reply.{question_of, question_answer};
ghost use Rattle.core_answers.specs.Performed.{Performed};
ghost use Rattle.core_services.specs.Room.{Room};

use crate::in_use::judge_in_use;
use crate::number::{
    GET_CONTROLLER_ERROR_STATE, GET_CONTROLLER_MODE, GET_CONTROLLER_RX_ERROR_COUNTER,
    GET_CONTROLLER_TX_ERROR_COUNTER,
};
use crate::report::report;
use core_answers::question::Question;
use core_answers::reported::Reported;
use core_answers::verdict::Verdict;
use core_places::controller::Controller;
use core_places::errors::{Errors, capped, error_state};
use core_places::places::CorePlaces;

// The number of the service that asks.
fn service_of(question: Question) -> u32
    ensures { result ≡ rules.question_service (question_of question) }
{
    match question {
        Question::Mode => GET_CONTROLLER_MODE,
        Question::ErrorState => GET_CONTROLLER_ERROR_STATE,
        Question::RxErrors => GET_CONTROLLER_RX_ERROR_COUNTER,
        Question::TxErrors => GET_CONTROLLER_TX_ERROR_COUNTER,
    }
}

// What a controller with these errors answers. A count is told up to 255.
fn answer_to(question: Question, k: Controller, e: Errors) -> u8
    ensures { result ≡ rules.answer_to (question_of question) (view_controller k) (view_errors e) }
{
    match question {
        Question::Mode => k.mode,
        Question::ErrorState => error_state(k, e),
        Question::RxErrors => capped(e.rx_errors),
        Question::TxErrors => capped(e.tx_errors),
    }
}

// Answers the question of a controller in use.
pub fn ask_controller<K: CorePlaces>(
    gate: Verdict,
    question: Question,
    core: &K,
    sheet: &mut [u32],
    controller: u32,
) -> Reported<u8>
    requires { Room (verdict_reason gate) sheet.old }
    ensures { (ram : List ℕ)
        → Performed (rules.ask_controller (verdict_reason gate) (question_of question) (K.core core.now) ram controller)
        (verdict_reason result.reply) (question_answer question result.reply) (K.core core.now)
        result.notifications ram sheet.old sheet.new }
{
    let c = controller as usize;
    let k = core.controller(c);
    let e = core.error_place(c);
    match gate.and(judge_in_use(core.initialised(), c, core.controller_count())) {
        Ok(()) => Reported {
            reply: Ok(answer_to(question, k, e)),
            notifications: 0,
        },
        Err(r) => {
            let notifications = report(sheet, service_of(question), r);
            Reported {
                reply: Err(r),
                notifications,
            }
        }
    }
}
