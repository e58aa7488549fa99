// The checks on a controller's number, which several services begin with.
ghost use Rattle.std.specs.Prelude.{◌≡◌, ltb};
ghost use Rattle.rules.specs.Reason.{first_reason};
ghost use Rattle.core_answers.specs.Answer.{verdict_reason};
ghost use Rattle.core_services.specs.Checks.{in_use_checks};

use core_answers::rejection::Rejection;
use core_answers::verdict::Verdict;

// Reasons 5 and 4: the driver is initialised, and controller c is one of the count in use.
#[tactic(auto, unfolding(rules::specs::Reason::first_reason))]
pub fn judge_in_use(initialised: bool, c: usize, count: usize) -> Verdict
    ensures { verdict_reason result ≡ first_reason (in_use_checks initialised (ltb c count)) }
{
    if !initialised {
        return Err(Rejection::Uninit);
    }
    if c < count {
        Ok(())
    } else {
        Err(Rejection::ParamController)
    }
}
