// What is asked of a controller: its mode, its error state and its error counts.
ghost use Rattle.std.specs.Prelude.{[], length};
ghost use Rattle.rules.specs.Outcome.{of_mode, of_error_state, of_rx_errors, of_tx_errors};
ghost use Rattle.rules.specs.Calls as rules;
ghost use Rattle.rules.specs.Can.{can_format};
ghost use Rattle.rules.specs.Chip.{chip};
ghost use Rattle.core_answers.specs.Answer.{verdict_reason};
ghost use Rattle.core_answers.specs.Reply.{question_of, question_answer};
ghost use Rattle.core_answers.specs.Performed.{Performed};
ghost use Rattle.can_state.specs.View.{view};

use can_chip::SHEET_SIZE;
use can_state::called::Called;
use can_state::state::State;
use can_state::validity::valid;
use core_answers::gate::sheet_gate;
use core_answers::question::Question;
use core_services::ask_controller::ask_controller;

// Answers a question of a controller in use.
fn ask(question: Question, state: State, sheet: &mut [u32], controller: u32) -> Called<u8>
    ensures { Performed (rules.ask_controller chip can_format (question_of question) (view state) (length sheet.old) [] controller)
        (verdict_reason result.reply) (question_answer question result.reply) (view result.state) result.notifications [] sheet.old sheet.new }
{
    let gate = sheet_gate(valid(state), sheet.len(), SHEET_SIZE);
    let reported = ask_controller(gate, question, &state.core, sheet, controller);
    Called {
        state,
        reply: reported.reply,
        notifications: reported.notifications,
    }
}

// GetControllerMode: answers the mode of a controller in use.
pub fn get_controller_mode(state: State, sheet: &mut [u32], controller: u32) -> Called<u8>
    ensures { Performed (rules.ask_controller chip can_format of_mode (view state) (length sheet.old) [] controller)
        (verdict_reason result.reply) (question_answer Question.Mode result.reply) (view result.state) result.notifications [] sheet.old sheet.new }
{
    ask(Question::Mode, state, sheet, controller)
}

// GetControllerErrorState: answers 0 for error active, 1 for error passive, 2 for bus-off.
pub fn get_controller_error_state(state: State, sheet: &mut [u32], controller: u32) -> Called<u8>
    ensures { Performed (rules.ask_controller chip can_format of_error_state (view state) (length sheet.old) [] controller)
        (verdict_reason result.reply) (question_answer Question.ErrorState result.reply) (view result.state) result.notifications [] sheet.old sheet.new }
{
    ask(Question::ErrorState, state, sheet, controller)
}

// GetControllerRxErrorCounter: answers the receive error count, at most 255.
pub fn get_controller_rx_error_counter(
    state: State,
    sheet: &mut [u32],
    controller: u32,
) -> Called<u8>
    ensures { Performed (rules.ask_controller chip can_format of_rx_errors (view state) (length sheet.old) [] controller)
        (verdict_reason result.reply) (question_answer Question.RxErrors result.reply) (view result.state) result.notifications [] sheet.old sheet.new }
{
    ask(Question::RxErrors, state, sheet, controller)
}

// GetControllerTxErrorCounter: answers the transmit error count, at most 255.
pub fn get_controller_tx_error_counter(
    state: State,
    sheet: &mut [u32],
    controller: u32,
) -> Called<u8>
    ensures { Performed (rules.ask_controller chip can_format of_tx_errors (view state) (length sheet.old) [] controller)
        (verdict_reason result.reply) (question_answer Question.TxErrors result.reply) (view result.state) result.notifications [] sheet.old sheet.new }
{
    ask(Question::TxErrors, state, sheet, controller)
}
