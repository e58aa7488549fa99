// Whether a controller takes part in the bus: what a bus-off and an arrival ask first.
ghost use Rattle.std.specs.Prelude.{◌≡◌};
ghost use Rattle.rules.specs.Reason.{first_reason};
ghost use Rattle.core_places.specs.View.{view_controller};
ghost use Rattle.core_answers.specs.Answer.{verdict_reason};
ghost use Rattle.core_events.specs.Checks.{on_bus_checks};

use core_answers::rejection::Rejection;
use core_answers::verdict::Verdict;
use core_places::controller::{Controller, STARTED};

// The driver is initialised, the controller is in use and STARTED, and it is not off the bus.
#[tactic(auto, unfolding(rules::specs::Reason::first_reason))]
pub fn judge_on_bus(initialised: bool, in_use: bool, k: Controller) -> Verdict
    ensures { verdict_reason result ≡ first_reason (on_bus_checks initialised in_use (view_controller k)) }
{
    if !initialised {
        return Err(Rejection::Uninit);
    }
    if !in_use {
        return Err(Rejection::ParamController);
    }
    if k.mode != STARTED {
        return Err(Rejection::NotStarted);
    }
    if k.bus_off {
        return Err(Rejection::BusOff);
    }
    Ok(())
}
