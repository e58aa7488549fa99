// 02's choice of who sends next on a controller.
ghost use Rattle.std.specs.Prelude.{[]};
ghost use Rattle.rules.specs.Calls as rules;
ghost use Rattle.rules.specs.Can.{can_format};
ghost use Rattle.rules.specs.Chip.{chip};
ghost use Rattle.core_answers.specs.Answer.{verdict_reason};
ghost use Rattle.core_answers.specs.Reply.{next_answer};
ghost use Rattle.core_answers.specs.Performed.{Performed};
ghost use Rattle.can_state.specs.View.{view};

use crate::lent::next_lent;
use can_chip::RAM_SIZE;
use can_state::state::State;
use can_state::validity::valid;
use core_answers::gate::ram_gate;
use core_answers::reply::NextReply;

// Answers the object whose frame goes first, or that nobody sends. It changes nothing and tells of nothing. Any controller may be named.
pub fn next_to_send(state: State, ram: &[u8], controller: u32) -> NextReply
    ensures { Performed (rules.next_to_send chip can_format (view state) ram.now controller)
        (verdict_reason result) (next_answer result) (view state) 0 ram.now [] [] }
{
    let gate = ram_gate(valid(state), ram.len(), RAM_SIZE);
    next_lent(gate, &state.core, ram, controller)
}
