// The development error that a refused service reports.
ghost use Rattle.rules.specs.Outcome.{service_report};
ghost use Rattle.core_answers.specs.Answer.{reason_of};
ghost use Rattle.core_answers.specs.Performed.{Noted};
ghost use Rattle.core_services.specs.Room.{Room};

use core_answers::rejection::{Rejection, reason};
use core_layout::notification::{Notification, put};

// Reasons from here on are the bench's own, and no development errors.
const FIRST_OWN_REASON: u32 = 32;

// Writes the one development error of a refused service, if its reason is one, and answers how many were written. The sheet has
// room where there is something to write.
pub fn report(sheet: &mut [u32], service: u32, r: Rejection) -> usize
    requires { Room (reason_of r) sheet.old }
    ensures { Noted (service_report service (reason_of r)) sheet.old sheet.new result }
{
    let error = reason(r);
    if error < FIRST_OWN_REASON {
        put(
            sheet,
            0,
            Notification::DevelopmentError {
                service: service,
                error: error,
            },
        );
        1
    } else {
        0
    }
}
