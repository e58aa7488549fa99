// Who sends next over a core wherever its places stand, behind the gate: the controller is judged, and one that is on the bus has its objects compete.
ghost use Rattle.std.specs.Prelude.{◌≡◌, ◌≤◌, max, []};
ghost use Rattle.rules.specs.Events as rules;
ghost use Rattle.core_answers.specs.Answer.{verdict_reason};
ghost use Rattle.core_answers.specs.Reply.{next_answer};
ghost use Rattle.core_answers.specs.Performed.{Performed};
ghost use Rattle.can_arbitration.specs.Choice.{rank_in};
ghost use Rattle.can_arbitration.specs.Lent.{NextRoom};

use crate::choice::choose;
use core_answers::reply::NextReply;
use core_answers::verdict::Verdict;
use core_events::next::told;
use core_places::places::CorePlaces;
use core_services::in_use::judge_in_use;

pub fn next_lent<K: CorePlaces>(gate: Verdict, core: &K, ram: &[u8], controller: u32) -> NextReply
    requires room { verdict_reason gate ≡ 0 → NextRoom (K.core core.now).object_count ram.now }
    requires readable { verdict_reason gate ≡ 0
        → (K.core core.now).object_count ≤ max (K.objects core.now) (K.readable_objects core.now) }
    ensures { Performed (rules.next_to_send (verdict_reason gate) (K.core core.now) ram.now controller (rank_in ram.now))
        (verdict_reason result) (next_answer result) (K.core core.now) 0 ram.now [] [] }
{
    let c = controller as usize;
    gate.and(judge_in_use(core.initialised(), c, core.controller_count()))?;
    if core.controller(c).bus_off {
        Ok(None)
    } else {
        told(choose(core, ram, c))
    }
}
