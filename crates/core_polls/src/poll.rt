// The polls on the core. The caller hands over the verdict of the gate; a poll has no further reason.
ghost use Rattle.std.specs.Prelude.{◌≡◌, ◌≤◌};
ghost use Rattle.rules.specs.Outcome.{no_answer};
ghost use Rattle.rules.specs.Polls as rules;
ghost use Rattle.core_answers.specs.Answer.{verdict_reason};
ghost use Rattle.core_answers.specs.Performed.{Performed};
ghost use Rattle.core_places.specs.Names.{SameNames};
ghost use Rattle.core_sweeps.specs.Visits.{visit_of};
ghost use Rattle.core_polls.specs.Turns.{turn_of};
ghost use Rattle.core_polls.specs.Swept.{ObjectRoom, ControllerRoom};

use crate::controllers::turn_all;
use crate::errors::errors_all;
use crate::turn::Turn;
use core_answers::reported::Reported;
use core_answers::verdict::Verdict;
use core_places::set_places::{SetControllers, SetErrors, SetMailboxes};
use core_sweeps::objects::visit_all;
use core_sweeps::visit::Visit;

// A poll over the objects in use: the write poll and the read poll.
pub fn poll_objects<K: SetMailboxes>(
    gate: Verdict,
    visit: Visit,
    core: &mut K,
    size: usize,
    two_bytes: bool,
    ram: &[u8],
    sheet: &mut [u32],
) -> Reported<()>
    requires room { verdict_reason gate ≡ 0 → ObjectRoom size (K.objects core.old) (K.core core.old) ram.now sheet.old }
    ensures done { Performed
        (rules.objects_polled (verdict_reason gate) (visit_of visit size two_bytes (K.core core.old).owners ram.now) (K.core core.old) ram.now)
        (verdict_reason result.reply) no_answer (K.core core.new) result.notifications ram.now sheet.old sheet.new }
    ensures places { (K.controllers core.new ≡ K.controllers core.old) × (K.objects core.new ≡ K.objects core.old) × (K.error_places core.new ≡ K.error_places core.old) }
    ensures memory { SameNames (K.memory core.new) (K.memory core.old) }
{
    match gate {
        Ok(()) => {
            let count = core.object_count();
            let told = visit_all(visit, count, core, 0, size, two_bytes, ram, sheet);
            Reported {
                reply: gate,
                notifications: told,
            }
        }
        Err(_) => Reported {
            reply: gate,
            notifications: 0,
        },
    }
}

// A poll over the controllers in use: the mode poll and the bus-off poll.
pub fn poll_controllers<K: SetControllers + SetErrors + SetMailboxes>(
    gate: Verdict,
    turn: Turn,
    core: &mut K,
    size: usize,
    ram: &[u8],
    sheet: &mut [u32],
) -> Reported<()>
    requires room { verdict_reason gate ≡ 0 → ControllerRoom size (K.controllers core.old) (K.objects core.old) (K.core core.old) ram.now sheet.old }
    requires errors { verdict_reason gate ≡ 0 → (K.core core.old).controller_count ≤ K.error_places core.old }
    ensures done { Performed
        (rules.controllers_polled (verdict_reason gate) size (turn_of turn) (K.core core.old) ram.now)
        (verdict_reason result.reply) no_answer (K.core core.new) result.notifications ram.now sheet.old sheet.new }
    ensures places { (K.controllers core.new ≡ K.controllers core.old) × (K.objects core.new ≡ K.objects core.old) × (K.error_places core.new ≡ K.error_places core.old) }
    ensures memory { SameNames (K.memory core.new) (K.memory core.old) }
{
    match gate {
        Ok(()) => {
            let count = core.controller_count();
            errors_all(turn, count, core);
            let told = turn_all(turn, core, size, ram, sheet);
            Reported {
                reply: gate,
                notifications: told,
            }
        }
        Err(_) => Reported {
            reply: gate,
            notifications: 0,
        },
    }
}
