// 01's Bus-off: a controller went off the bus.
ghost use Rattle.std.specs.Prelude.{◌≡◌, List, [], ℕ, ◌≤◌};
ghost use Rattle.rules.specs.Outcome.{no_answer};
ghost use Rattle.rules.specs.Events as rules;
ghost use Rattle.core_places.specs.View.{view_controller};
ghost use Rattle.core_places.specs.Names.{SameNames};
ghost use Rattle.core_answers.specs.Answer.{verdict_reason};
ghost use Rattle.core_answers.specs.Performed.{Performed};

use crate::on_bus::judge_on_bus;
use core_answers::verdict::Verdict;
use core_places::controller::Controller;
use core_places::set_places::SetControllers;

// The controller with the off-bus mark; its mode and its request stay until the bus-off poll.
pub fn marked_bus_off(k: Controller) -> Controller
    ensures { view_controller result ≡ rules.marked_bus_off (view_controller k) }
{
    Controller {
        mode: k.mode,
        requested_mode: k.requested_mode,
        bus_off: true,
    }
}

// Marks the controller as off the bus. Any number may be named.
pub fn bus_off_detected<K: SetControllers>(gate: Verdict, core: &mut K, controller: u32) -> Verdict
    requires { verdict_reason gate ≡ 0 → (K.core core.old).controller_count ≤ K.controllers core.old }
    ensures performed { (ram : List ℕ)
        → Performed (rules.bus_off_detected (verdict_reason gate) (K.core core.old) ram controller)
        (verdict_reason result) no_answer (K.core core.new) 0 ram [] [] }
    ensures places { (K.controllers core.new ≡ K.controllers core.old) × (K.objects core.new ≡ K.objects core.old) × (K.error_places core.new ≡ K.error_places core.old) }
    ensures memory { SameNames (K.memory core.new) (K.memory core.old) }
{
    let c = controller as usize;
    let k = core.controller(c);
    let in_use = c < core.controller_count();
    gate.and(judge_on_bus(core.initialised(), in_use, k))?;
    core.set_controller(c, marked_bus_off(k));
    Ok(())
}
