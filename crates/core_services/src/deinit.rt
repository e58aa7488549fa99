// What DeInit asks of the core.
ghost use Rattle.std.specs.Prelude.{◌≡◌};
ghost use Rattle.rules.specs.Reason.{first_reason};
ghost use Rattle.rules.specs.Services as rules;
ghost use Rattle.core_answers.specs.Answer.{verdict_reason};
ghost use Rattle.core_services.specs.Checks.{deinit_checks};

use core_answers::rejection::Rejection;
use core_answers::verdict::Verdict;
use core_places::controller::STARTED;
use core_places::places::CorePlaces;
use core_places::range::limited;

// Whether a controller in use is STARTED.
#[tactic(auto, unfolding(rules::specs::Repeat::all_below))]
pub fn some_started<K: CorePlaces>(core: &K) -> bool
    ensures { result ≡ rules.some_started (K.core core.now) }
{
    let end = limited(core.controller_count(), core.controller_places());
    let mut none = true;
    for c in 0..end {
        none = none & (core.read_controller(c).mode != STARTED);
    }
    !none
}

// Reason 6: the driver is initialised, and no controller is STARTED.
#[tactic(auto, unfolding(rules::specs::Reason::first_reason))]
pub fn judge_deinit(initialised: bool, started: bool) -> Verdict
    ensures { verdict_reason result ≡ first_reason (deinit_checks initialised started) }
{
    if !initialised | started {
        Err(Rejection::Transition)
    } else {
        Ok(())
    }
}
