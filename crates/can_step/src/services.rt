// The services on a controller, on a state that is valid.
ghost use Rattle.std.specs.Prelude.{◌≡◌, List, ℕ, length};
ghost use Rattle.rules.specs.Calls as calls;
ghost use Rattle.rules.specs.Can.{can_format};
ghost use Rattle.rules.specs.Chip.{chip};
ghost use Rattle.core_answers.specs.Reply.{question_of};
ghost use Rattle.can_state.specs.View.{view};
ghost use Rattle.history.specs.Replay.{whole, whole_of};
ghost use Rattle.can_step.specs.Stepped.{Stands};

use can_chip::SHEET_SIZE;
use can_state::state::State;
use core_answers::gate::sheet_gate;
use core_answers::question::Question;
use core_services::ask_controller::ask_controller;

// SetControllerMode.
pub fn set_mode(state: &mut State, sheet: &mut [u32], controller: u32, asked: u32)
    requires { Stands state.old }
    ensures { (ram : List ℕ) → whole (view state.new) ram sheet.new
        ≡ whole_of (calls.set_controller_mode chip can_format (view state.old) (length sheet.old) ram controller asked) sheet.old }
{
    let gate = sheet_gate(true, sheet.len(), SHEET_SIZE);
    core_services::set_controller_mode::set_controller_mode(
        gate,
        &mut state.core,
        sheet,
        controller,
        asked,
    );
}

// A question of a controller.
pub fn ask(question: Question, state: &State, sheet: &mut [u32], controller: u32)
    requires { Stands state.now }
    ensures { (ram : List ℕ) → whole (view state.now) ram sheet.new
        ≡ whole_of (calls.ask_controller chip can_format (question_of question) (view state.now) (length sheet.old) ram controller) sheet.old }
{
    let gate = sheet_gate(true, sheet.len(), SHEET_SIZE);
    ask_controller(gate, question, &state.core, sheet, controller);
}
