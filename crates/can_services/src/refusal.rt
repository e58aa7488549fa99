// A service that is refused and answers a verdict alone.
ghost use Rattle.core_answers.specs.Answer.{reason_of};
ghost use Rattle.core_services.specs.Room.{Room};
ghost use Rattle.can_services.specs.Refused.{Refused};

use can_state::called::Called;
use can_state::state::State;
use core_answers::rejection::Rejection;
use core_answers::verdict::Verdict;
use core_services::report::report;

// Reports the reason and hands the state back as it is.
pub fn refused(state: State, sheet: &mut [u32], service: u32, r: Rejection) -> Called<()>
    requires { Room (reason_of r) sheet.old }
    ensures { Refused service r state result sheet.old sheet.new }
{
    let notifications = report(sheet, service, r);
    Called {
        state,
        reply: Err(r),
        notifications,
    }
}
