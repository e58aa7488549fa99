// 01's Bus-off: a controller went off the bus.
ghost use Rattle.std.specs.Prelude.{[]};
ghost use Rattle.rules.specs.Outcome.{no_answer};
ghost use Rattle.rules.specs.Calls as rules;
ghost use Rattle.rules.specs.Can.{can_format};
ghost use Rattle.rules.specs.Chip.{chip};
ghost use Rattle.core_answers.specs.Answer.{verdict_reason};
ghost use Rattle.core_answers.specs.Performed.{Performed};
ghost use Rattle.can_state.specs.View.{view};

use can_state::called::Called;
use can_state::state::State;
use can_state::validity::valid;
use core_answers::gate::state_gate;

// Marks the controller as off the bus; its mode stays until the bus-off poll. Any number may be named.
pub fn bus_off_detected(state: State, controller: u32) -> Called<()>
    ensures { Performed (rules.bus_off_detected chip can_format (view state) [] controller)
        (verdict_reason result.reply) no_answer (view result.state) result.notifications [] [] [] }
{
    let mut next = state;
    let gate = state_gate(valid(state));
    let verdict = core_events::bus_off_detected::bus_off_detected(gate, &mut next.core, controller);
    Called {
        state: next,
        reply: verdict,
        notifications: 0,
    }
}
