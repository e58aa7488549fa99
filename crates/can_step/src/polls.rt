// The polls, on a state that is valid.
ghost use Rattle.std.specs.Prelude.{◌≡◌, false, length};
ghost use Rattle.rules.specs.Outcome.{full_gate, lifted};
ghost use Rattle.rules.specs.Polls.{objects_polled, controllers_polled};
ghost use Rattle.rules.specs.Can.{can_format};
ghost use Rattle.rules.specs.Chip.{chip};
ghost use Rattle.core_sweeps.specs.Visits.{visit_of};
ghost use Rattle.core_polls.specs.Turns.{turn_of};
ghost use Rattle.can_state.specs.View.{view};
ghost use Rattle.history.specs.Replay.{whole, whole_of};
ghost use Rattle.can_step.specs.Stepped.{Stands};

use can_chip::{OBJECT_SIZE, RAM_SIZE, SHEET_SIZE, TWO_LENGTH_BYTES};
use can_state::state::State;
use core_answers::gate::full_gate;
use core_polls::poll::{poll_controllers, poll_objects};
use core_polls::turn::Turn;
use core_sweeps::visit::Visit;

// A poll over the objects: the write poll and the read poll.
pub fn objects(visit: Visit, state: &mut State, ram: &[u8], sheet: &mut [u32])
    requires { Stands state.old }
    ensures { whole (view state.new) ram.now sheet.new
        ≡ whole_of
        (lifted (view state.old)
        (objects_polled (full_gate chip can_format (view state.old) (length sheet.old) ram.now)
        (visit_of visit chip.object_size false (view state.old).core.owners ram.now) (view state.old).core ram.now))
        sheet.old }
{
    let gate = full_gate(true, sheet.len(), SHEET_SIZE, ram.len(), RAM_SIZE);
    poll_objects(
        gate,
        visit,
        &mut state.core,
        OBJECT_SIZE,
        TWO_LENGTH_BYTES,
        ram,
        sheet,
    );
}

// A poll over the controllers: the mode poll and the bus-off poll.
pub fn controllers(turn: Turn, state: &mut State, ram: &[u8], sheet: &mut [u32])
    requires { Stands state.old }
    ensures { whole (view state.new) ram.now sheet.new
        ≡ whole_of
        (lifted (view state.old)
        (controllers_polled (full_gate chip can_format (view state.old) (length sheet.old) ram.now) chip.object_size (turn_of turn)
        (view state.old).core ram.now))
        sheet.old }
{
    let gate = full_gate(true, sheet.len(), SHEET_SIZE, ram.len(), RAM_SIZE);
    poll_controllers(gate, turn, &mut state.core, OBJECT_SIZE, ram, sheet);
}
