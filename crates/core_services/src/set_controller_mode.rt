// SetControllerMode: asks a controller for a mode, which it takes at the next mode poll.
ghost use Rattle.std.specs.Prelude.{◌≡◌, true, List, ◌++◌, ℕ, ◌≤◌, ltb};
ghost use Rattle.rules.specs.Mode as modes;
ghost use Rattle.rules.specs.Reason.{first_reason};
ghost use Rattle.rules.specs.Outcome.{no_answer};
ghost use Rattle.rules.specs.Services as rules;
ghost use Rattle.core_places.specs.View.{view_controller};
ghost use Rattle.core_places.specs.Names.{SameNames};
ghost use Rattle.core_answers.specs.Answer.{verdict_reason};
ghost use Rattle.core_answers.specs.Performed.{Performed};
ghost use Rattle.core_services.specs.Checks.{in_use_checks, move_checks};
ghost use Rattle.core_services.specs.Room.{Room};

use crate::in_use::judge_in_use;
use crate::number::SET_CONTROLLER_MODE;
use crate::report::report;
use core_answers::rejection::Rejection;
use core_answers::reported::Reported;
use core_answers::verdict::Verdict;
use core_places::controller::{Controller, permitted};
use core_places::set_places::SetControllers;

// Reason 6: a controller in this mode may be asked for that one, which can be any number.
#[tactic(auto, unfolding(rules::specs::Reason::first_reason))]
pub fn judge_move(k: Controller, asked: u32) -> Verdict
    ensures { verdict_reason result ≡ first_reason (move_checks (view_controller k) asked) }
{
    if permitted(k.mode, asked) {
        Ok(())
    } else {
        Err(Rejection::Transition)
    }
}

// All reasons of SetControllerMode: of controller c among the count in use, which is k, and of the mode asked for.
#[tactic(auto, unfolding(rules::specs::Reason::first_reason))]
pub fn judge_set_mode(
    initialised: bool,
    c: usize,
    count: usize,
    k: Controller,
    asked: u32,
) -> Verdict
    ensures { verdict_reason result ≡ first_reason (in_use_checks initialised (ltb c count) ++ move_checks (view_controller k) asked) }
{
    judge_in_use(initialised, c, count)?;
    judge_move(k, asked)
}

// The controller with a permitted mode waiting, in place of an earlier one.
pub fn request_mode(k: Controller, asked: u32) -> Controller
    requires { modes.permitted k.mode asked ≡ true }
    ensures { view_controller result ≡ rules.with_request asked (view_controller k) }
{
    Controller {
        mode: k.mode,
        requested_mode: asked as u8,
        bus_off: k.bus_off,
    }
}

// Has a controller in use wait for a mode that is permitted from its present one.
pub fn set_controller_mode<K: SetControllers>(
    gate: Verdict,
    core: &mut K,
    sheet: &mut [u32],
    controller: u32,
    asked: u32,
) -> Reported<()>
    requires { (verdict_reason gate ≡ 0 → (K.core core.old).controller_count ≤ K.controllers core.old) × Room (verdict_reason gate) sheet.old }
    ensures performed { (ram : List ℕ)
        → Performed (rules.set_controller_mode (verdict_reason gate) (K.core core.old) ram controller asked)
        (verdict_reason result.reply) no_answer (K.core core.new)
        result.notifications ram sheet.old sheet.new }
    ensures places { (K.controllers core.new ≡ K.controllers core.old) × (K.objects core.new ≡ K.objects core.old) × (K.error_places core.new ≡ K.error_places core.old) }
    ensures memory { SameNames (K.memory core.new) (K.memory core.old) }
{
    let c = controller as usize;
    let k = core.controller(c);
    match gate.and(judge_set_mode(core.initialised(), c, core.controller_count(), k, asked)) {
        Ok(()) => {
            core.set_controller(c, request_mode(k, asked));
            Reported {
                reply: Ok(()),
                notifications: 0,
            }
        }
        Err(r) => {
            let notifications = report(sheet, SET_CONTROLLER_MODE, r);
            Reported {
                reply: Err(r),
                notifications,
            }
        }
    }
}
