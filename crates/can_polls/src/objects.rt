// The polls over the objects: the write poll and the read poll.
ghost use Rattle.std.specs.Prelude.{false, length};
ghost use Rattle.rules.specs.Outcome.{no_answer, full_gate};
ghost use Rattle.rules.specs.Outcome as outcomes;
ghost use Rattle.rules.specs.Polls as polls;
ghost use Rattle.rules.specs.Calls as rules;
ghost use Rattle.rules.specs.Can.{can_format};
ghost use Rattle.rules.specs.Chip.{chip};
ghost use Rattle.core_answers.specs.Answer.{verdict_reason};
ghost use Rattle.core_answers.specs.Performed.{Performed};
ghost use Rattle.core_sweeps.specs.Visits.{visit_of};
ghost use Rattle.can_state.specs.View.{view};

use can_chip::{OBJECT_SIZE, RAM_SIZE, SHEET_SIZE, TWO_LENGTH_BYTES};
use can_state::called::Called;
use can_state::state::State;
use can_state::validity::valid;
use core_answers::gate::full_gate;
use core_polls::poll::poll_objects;
use core_sweeps::visit::Visit;

// A poll over the objects: the state with its mailboxes after the poll.
fn polled(visit: Visit, state: State, ram: &[u8], sheet: &mut [u32]) -> Called<()>
    ensures { Performed
        (outcomes.lifted (view state)
        (polls.objects_polled (full_gate chip can_format (view state) (length sheet.old) ram.now)
        (visit_of visit chip.object_size false (view state).core.owners ram.now)
        (view state).core ram.now))
        (verdict_reason result.reply) no_answer (view result.state) result.notifications ram.now sheet.old sheet.new }
{
    let mut next = state;
    let gate = full_gate(valid(state), sheet.len(), SHEET_SIZE, ram.len(), RAM_SIZE);
    let reported = poll_objects(
        gate,
        visit,
        &mut next.core,
        OBJECT_SIZE,
        TWO_LENGTH_BYTES,
        ram,
        sheet,
    );
    Called {
        state: next,
        reply: reported.reply,
        notifications: reported.notifications,
    }
}

// Write poll: each object whose frame was sent is confirmed and freed.
#[tactic(auto, unfolding(rules::specs::Calls::main_function_write, rules::specs::Polls::main_function_write))]
pub fn main_function_write(state: State, ram: &[u8], sheet: &mut [u32]) -> Called<()>
    ensures { Performed
        (rules.main_function_write chip can_format (view state) (length sheet.old) ram.now)
        (verdict_reason result.reply) no_answer (view result.state) result.notifications ram.now sheet.old sheet.new }
{
    polled(Visit::Sent, state, ram, sheet)
}

// Read poll: each object that holds a received frame is indicated and emptied.
#[tactic(auto, unfolding(rules::specs::Calls::main_function_read, rules::specs::Polls::main_function_read))]
pub fn main_function_read(state: State, ram: &[u8], sheet: &mut [u32]) -> Called<()>
    ensures { Performed
        (rules.main_function_read chip can_format (view state) (length sheet.old) ram.now)
        (verdict_reason result.reply) no_answer (view result.state) result.notifications ram.now sheet.old sheet.new }
{
    polled(Visit::Received, state, ram, sheet)
}
