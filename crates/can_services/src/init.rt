// Init: takes a configuration from bytes, and stops its controllers.
ghost use Rattle.std.specs.Prelude.{◌≡◌, length, IfOk};
ghost use Rattle.rules.specs.Reason.{first_reason};
ghost use Rattle.rules.specs.Configuration.{accepted_bytes, configuration_of};
ghost use Rattle.rules.specs.Outcome.{no_answer};
ghost use Rattle.rules.specs.Calls as rules;
ghost use Rattle.rules.specs.Can.{can_format};
ghost use Rattle.rules.specs.Chip.{chip};
ghost use Rattle.core_answers.specs.Answer.{verdict_reason};
ghost use Rattle.core_answers.specs.Performed.{Performed};
ghost use Rattle.can_state.specs.View.{view};
ghost use Rattle.can_config.specs.View.{view_setup};
ghost use Rattle.can_services.specs.Checks.{init_checks};

use crate::configured::configured_state;
use crate::refusal::refused;
use can_chip::{RAM_SIZE, SHEET_SIZE};
use can_config::read::read;
use can_config::setup::Setup;
use can_state::called::Called;
use can_state::state::State;
use can_state::validity::valid;
use core_answers::gate::full_gate;
use core_answers::rejection::Rejection;
use core_answers::verdict::Verdict;
use core_layout::bytes::clear;
use core_services::number::INIT;

// Reasons 6 and 9: the driver is not initialised yet, and the configuration is good. Then it is what the bytes say.
fn judge_init(initialised: bool, bytes: &[u8]) -> Result<Setup, Rejection>
    ensures reason { verdict_reason result ≡ first_reason (init_checks initialised (accepted_bytes chip can_format bytes.now)) }
    ensures setup { IfOk result (λ s. view_setup s ≡ configuration_of chip can_format bytes.now) }
{
    if initialised {
        return Err(Rejection::Transition);
    }
    match read(bytes) {
        Some(reading) => Ok(reading.setup),
        None => Err(Rejection::InitFailed),
    }
}

// Takes the configuration that the bytes say, and leaves the memory zero.
pub fn init(state: State, ram: &mut [u8], sheet: &mut [u32], bytes: &[u8]) -> Called<()>
    ensures { Performed (rules.init chip can_format (view state) (length sheet.old) ram.old bytes.now)
        (verdict_reason result.reply) no_answer (view result.state) result.notifications ram.new sheet.old sheet.new }
{
    let gate = full_gate(valid(state), sheet.len(), SHEET_SIZE, ram.len(), RAM_SIZE);
    let core = &state.core;
    match gate.and(judge_init(core.initialised, bytes)) {
        Ok(setup) => {
            clear(ram);
            Called {
                state: configured_state(setup),
                reply: Ok(()),
                notifications: 0,
            }
        }
        Err(r) => refused(state, sheet, INIT, r),
    }
}
