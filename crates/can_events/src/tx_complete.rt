// 01's Sent: a frame left the object.
ghost use Rattle.std.specs.Prelude.{[]};
ghost use Rattle.rules.specs.Outcome.{no_answer};
ghost use Rattle.rules.specs.Calls as rules;
ghost use Rattle.rules.specs.Can.{can_format};
ghost use Rattle.rules.specs.Chip.{chip};
ghost use Rattle.core_answers.specs.Answer.{verdict_reason};
ghost use Rattle.core_answers.specs.Performed.{Performed};
ghost use Rattle.can_state.specs.View.{view};

use can_state::called::Called;
use can_state::state::State;
use can_state::validity::valid;
use core_answers::gate::state_gate;

// Marks the object as sent, so that the next write poll confirms it. Any number may be named.
pub fn tx_complete(state: State, object: u32) -> Called<()>
    ensures { Performed (rules.tx_complete chip can_format (view state) [] object)
        (verdict_reason result.reply) no_answer (view result.state) result.notifications [] [] [] }
{
    let mut next = state;
    let gate = state_gate(valid(state));
    let verdict = core_events::tx_complete::tx_complete(gate, &mut next.core, object);
    Called {
        state: next,
        reply: verdict,
        notifications: 0,
    }
}
