// What Write asks of a frame.
ghost use Rattle.std.specs.Prelude.{◌≡◌};
ghost use Rattle.rules.specs.Reason.{first_reason};
ghost use Rattle.rules.specs.Can as can;
ghost use Rattle.core_answers.specs.Answer.{verdict_reason};
ghost use Rattle.can_state.specs.View.{view_settings};

use can_frame::identifier::identifier_good;
use can_frame::length::length_fits;
use can_state::settings::Settings;
use core_answers::rejection::Rejection;
use core_answers::verdict::Verdict;

// Reasons 3 and 34: the data fits the frame's format and the object, and the identifier is good.
#[tactic(auto, unfolding(rules::specs::Reason::first_reason))]
pub fn judge_frame(s: Settings, identifier: u32, sdu: &[u8]) -> Verdict
    ensures { verdict_reason result ≡ first_reason (can.write_checks (view_settings s) (record { identifier = identifier; sdu = sdu.now })) }
{
    let fits = length_fits(s.payload as u32, identifier, sdu.len());
    let good = identifier_good(identifier);
    if !fits {
        return Err(Rejection::ParamDataLength);
    }
    if good {
        Ok(())
    } else {
        Err(Rejection::BadIdentifier)
    }
}
