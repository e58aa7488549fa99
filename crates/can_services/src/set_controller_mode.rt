// SetControllerMode: asks a controller for a mode, which it takes at the next mode poll.
ghost use Rattle.std.specs.Prelude.{[], length};
ghost use Rattle.rules.specs.Outcome.{no_answer};
ghost use Rattle.rules.specs.Calls as rules;
ghost use Rattle.rules.specs.Can.{can_format};
ghost use Rattle.rules.specs.Chip.{chip};
ghost use Rattle.core_answers.specs.Answer.{verdict_reason};
ghost use Rattle.core_answers.specs.Performed.{Performed};
ghost use Rattle.can_state.specs.View.{view};

use can_chip::SHEET_SIZE;
use can_state::called::Called;
use can_state::state::State;
use can_state::validity::valid;
use core_answers::gate::sheet_gate;

// Has a controller in use wait for a mode that is permitted from its present one.
pub fn set_controller_mode(
    state: State,
    sheet: &mut [u32],
    controller: u32,
    mode: u32,
) -> Called<()>
    ensures { Performed (rules.set_controller_mode chip can_format (view state) (length sheet.old) [] controller mode)
        (verdict_reason result.reply) no_answer (view result.state) result.notifications [] sheet.old sheet.new }
{
    let mut next = state;
    let gate = sheet_gate(valid(state), sheet.len(), SHEET_SIZE);
    let reported = core_services::set_controller_mode::set_controller_mode(
        gate,
        &mut next.core,
        sheet,
        controller,
        mode,
    );
    Called {
        state: next,
        reply: reported.reply,
        notifications: reported.notifications,
    }
}
