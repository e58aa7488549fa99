// The simulated controller has counted errors.
ghost use Rattle.std.specs.Prelude.{◌≡◌, List, ℕ, ◌≤◌, length};
ghost use Rattle.rules.specs.Outcome.{no_answer};
ghost use Rattle.rules.specs.Events as rules;
ghost use Rattle.core_layout.specs.Sheet.{words_each};
ghost use Rattle.core_places.specs.Names.{SameNames};
ghost use Rattle.core_answers.specs.Answer.{verdict_reason};
ghost use Rattle.core_answers.specs.Performed.{Performed};

use crate::counted::{counted_controller, counted_errors, judge_counts, report_passive};
use crate::on_bus::judge_on_bus;
use core_answers::reported::Reported;
use core_answers::verdict::Verdict;
use core_places::set_places::{SetControllers, SetErrors};

// Sets both error counts of the controller. A transmit count above 255 marks it as off the bus, and entering passive is told. Any numbers may
// be named.
pub fn errors_counted<K: SetControllers + SetErrors>(
    gate: Verdict,
    core: &mut K,
    sheet: &mut [u32],
    controller: u32,
    transmit: u32,
    receive: u32,
) -> Reported<()>
    requires { verdict_reason gate ≡ 0 → ((K.core core.old).controller_count ≤ K.controllers core.old) × ((K.core core.old).controller_count ≤ K.error_places core.old) × (words_each ≤ length sheet.old) }
    ensures performed { (ram : List ℕ)
        → Performed (rules.errors_counted (verdict_reason gate) (K.core core.old) ram controller transmit receive)
        (verdict_reason result.reply) no_answer (K.core core.new) result.notifications ram sheet.old sheet.new }
    ensures places { (K.controllers core.new ≡ K.controllers core.old) × (K.objects core.new ≡ K.objects core.old) × (K.error_places core.new ≡ K.error_places core.old) }
    ensures memory { SameNames (K.memory core.new) (K.memory core.old) }
{
    let c = controller as usize;
    let k = core.controller(c);
    let e = core.error_place(c);
    let in_use = c < core.controller_count();
    let own = judge_on_bus(core.initialised(), in_use, k).and(judge_counts(transmit, receive));
    match gate.and(own) {
        Ok(()) => {
            let notifications = report_passive(sheet, controller, transmit, receive, k, e);
            core.set_controller(c, counted_controller(transmit, k));
            core.set_errors(c, counted_errors(transmit, receive, e));
            Reported {
                reply: Ok(()),
                notifications,
            }
        }
        Err(r) => Reported {
            reply: Err(r),
            notifications: 0,
        },
    }
}
