// What Arrived asks of a frame.
ghost use Rattle.std.specs.Prelude.{◌≡◌, not, [], ◌∷◌};
ghost use Rattle.rules.specs.Reason.{◌if◌, first_reason, BAD_IDENTIFIER, BAD_LENGTH};
ghost use Rattle.rules.specs.Can as can;
ghost use Rattle.core_answers.specs.Answer.{verdict_reason};

use can_frame::identifier::identifier_good;
use can_frame::length::is_wire_length;
use core_answers::rejection::Rejection;
use core_answers::verdict::Verdict;

// Whether a frame can come from the bus: its identifier is good, and its length is a wire length of its format.
#[tactic(auto, unfolding(rules::specs::Reason::first_reason))]
pub fn judge_frame(identifier: u32, length: usize) -> Verdict
    ensures { verdict_reason result
        ≡ first_reason
        (BAD_IDENTIFIER if not (can.identifier_good identifier) ∷ BAD_LENGTH if not (can.is_wire_length identifier «length») ∷ []) }
{
    let good = identifier_good(identifier);
    let on_wire = is_wire_length(identifier, length);
    if !good {
        return Err(Rejection::BadIdentifier);
    }
    if !on_wire {
        return Err(Rejection::BadLength);
    }
    Ok(())
}
