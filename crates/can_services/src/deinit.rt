// DeInit: brings the driver back to the state before Init. Received frames that were not read are dropped.
ghost use Rattle.std.specs.Prelude.{length};
ghost use Rattle.rules.specs.Outcome.{no_answer};
ghost use Rattle.rules.specs.Calls as rules;
ghost use Rattle.rules.specs.Can.{can_format};
ghost use Rattle.rules.specs.Chip.{chip};
ghost use Rattle.core_answers.specs.Answer.{verdict_reason};
ghost use Rattle.core_answers.specs.Performed.{Performed};
ghost use Rattle.can_state.specs.View.{view};

use crate::refusal::refused;
use can_chip::{RAM_SIZE, SHEET_SIZE};
use can_state::called::Called;
use can_state::state::{State, initial_state};
use can_state::validity::valid;
use core_answers::gate::full_gate;
use core_answers::verdict::Verdict;
use core_layout::bytes::clear;
use core_services::deinit::{judge_deinit, some_started};
use core_services::number::DEINIT;

// Leaves everything at rest and the memory zero.
pub fn deinit(state: State, ram: &mut [u8], sheet: &mut [u32]) -> Called<()>
    ensures { Performed (rules.deinit chip can_format (view state) (length sheet.old) ram.old)
        (verdict_reason result.reply) no_answer (view result.state) result.notifications ram.new sheet.old sheet.new }
{
    let started = some_started(&state.core);
    let gate = full_gate(valid(state), sheet.len(), SHEET_SIZE, ram.len(), RAM_SIZE);
    match gate.and(judge_deinit(state.core.initialised, started)) {
        Ok(()) => {
            clear(ram);
            let rest = initial_state();
            Called {
                state: rest,
                reply: Ok(()),
                notifications: 0,
            }
        }
        Err(r) => refused(state, sheet, DEINIT, r),
    }
}
