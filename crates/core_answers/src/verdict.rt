// What the checks of a call come to.
ghost use Rattle.std.specs.Prelude.{◌≡◌};
ghost use Rattle.rules.specs.Reason as rules;
ghost use Rattle.core_answers.specs.Answer.{reason_of, verdict_reason};

use crate::rejection::{Rejection, reason};

// A call is accepted, or refused for a reason.
pub type Verdict = Result<(), Rejection>;

// The verdict in an answer: what is answered is accepted.
pub fn verdict<T: Copy>(reply: Result<T, Rejection>) -> Verdict
    ensures { verdict_reason result ≡ verdict_reason reply }
{
    match reply {
        Ok(_) => Ok(()),
        Err(r) => Err(r),
    }
}

// The reason's number, 0 where the call is accepted.
pub fn verdict_reason<T: Copy>(reply: Result<T, Rejection>) -> u32
    ensures { result ≡ verdict_reason reply }
{
    match reply {
        Ok(_) => 0,
        Err(r) => reason(r),
    }
}

// The return code: 0 is E_OK, 1 E_NOT_OK, 2 CAN_BUSY.
pub fn return_code<T: Copy>(reply: Result<T, Rejection>) -> u32
    ensures { result ≡ rules.return_code (verdict_reason reply) }
{
    match reply {
        Ok(_) => 0,
        Err(r) => busy_or_not_ok(r),
    }
}

// CAN_BUSY where the object holds a frame, else E_NOT_OK.
fn busy_or_not_ok(r: Rejection) -> u32
    ensures { result ≡ rules.return_code (reason_of r) }
{
    if reason(r) == reason(Rejection::ObjectBusy) {
        2
    } else {
        1
    }
}
