// The simulated controller has counted errors.
ghost use Rattle.std.specs.Prelude.{[], length};
ghost use Rattle.rules.specs.Outcome.{no_answer};
ghost use Rattle.rules.specs.Calls as rules;
ghost use Rattle.rules.specs.Can.{can_format};
ghost use Rattle.rules.specs.Chip.{chip};
ghost use Rattle.core_answers.specs.Answer.{verdict_reason};
ghost use Rattle.core_answers.specs.Performed.{Performed};
ghost use Rattle.can_state.specs.View.{view};

use can_chip::SHEET_SIZE;
use can_state::called::Called;
use can_state::state::State;
use can_state::validity::valid;
use core_answers::gate::sheet_gate;

// Sets both error counts of a controller. A transmit count above 255 marks it as off the bus, and entering passive is told. Any numbers may be
// named.
pub fn errors_counted(
    state: State,
    sheet: &mut [u32],
    controller: u32,
    transmit: u32,
    receive: u32,
) -> Called<()>
    ensures { Performed (rules.errors_counted chip can_format (view state) (length sheet.old) [] controller transmit receive)
        (verdict_reason result.reply) no_answer (view result.state) result.notifications [] sheet.old sheet.new }
{
    let mut next = state;
    let gate = sheet_gate(valid(state), sheet.len(), SHEET_SIZE);
    let reported = core_events::errors_counted::errors_counted(
        gate,
        &mut next.core,
        sheet,
        controller,
        transmit,
        receive,
    );
    Called {
        state: next,
        reply: reported.reply,
        notifications: reported.notifications,
    }
}
