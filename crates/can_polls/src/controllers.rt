// The polls over the controllers: the mode poll and the bus-off poll.
ghost use Rattle.std.specs.Prelude.{length};
ghost use Rattle.rules.specs.Outcome.{no_answer, full_gate, lifted};
ghost use Rattle.rules.specs.Polls as polls;
ghost use Rattle.rules.specs.Calls as rules;
ghost use Rattle.rules.specs.Can.{can_format};
ghost use Rattle.rules.specs.Chip.{chip};
ghost use Rattle.core_answers.specs.Answer.{verdict_reason};
ghost use Rattle.core_answers.specs.Performed.{Performed};
ghost use Rattle.core_polls.specs.Turns.{turn_of};
ghost use Rattle.can_state.specs.View.{view};

use can_chip::{OBJECT_SIZE, RAM_SIZE, SHEET_SIZE};
use can_state::called::Called;
use can_state::state::State;
use can_state::validity::valid;
use core_answers::gate::full_gate;
use core_polls::poll::poll_controllers;
use core_polls::turn::Turn;

// A poll over the controllers: the state with its core after the poll.
fn polled(turn: Turn, state: State, ram: &[u8], sheet: &mut [u32]) -> Called<()>
    ensures { Performed
        (lifted (view state)
        (polls.controllers_polled (full_gate chip can_format (view state) (length sheet.old) ram.now) chip.object_size (turn_of turn)
        (view state).core ram.now))
        (verdict_reason result.reply) no_answer (view result.state) result.notifications ram.now sheet.old sheet.new }
{
    let mut next = state;
    let gate = full_gate(valid(state), sheet.len(), SHEET_SIZE, ram.len(), RAM_SIZE);
    let reported = poll_controllers(gate, turn, &mut next.core, OBJECT_SIZE, ram, sheet);
    Called {
        state: next,
        reply: reported.reply,
        notifications: reported.notifications,
    }
}

// Mode poll: each controller that is not marked off-bus enters the mode that is requested of it. One that leaves STARTED has its pending
// objects closed and freed before its mode is told; one that enters STARTED begins without errors.
#[tactic(auto, unfolding(rules::specs::Calls::main_function_mode, rules::specs::Polls::main_function_mode))]
pub fn main_function_mode(state: State, ram: &[u8], sheet: &mut [u32]) -> Called<()>
    ensures { Performed
        (rules.main_function_mode chip can_format (view state) (length sheet.old) ram.now)
        (verdict_reason result.reply) no_answer (view result.state) result.notifications ram.now sheet.old sheet.new }
{
    polled(Turn::ModeChange, state, ram, sheet)
}

// Bus-off poll: each marked controller has its pending objects closed and freed, is told of, and is STOPPED; its error state stays bus-off
// until it is STARTED.
#[tactic(auto, unfolding(rules::specs::Calls::main_function_bus_off, rules::specs::Polls::main_function_bus_off))]
pub fn main_function_bus_off(state: State, ram: &[u8], sheet: &mut [u32]) -> Called<()>
    ensures { Performed
        (rules.main_function_bus_off chip can_format (view state) (length sheet.old) ram.now)
        (verdict_reason result.reply) no_answer (view result.state) result.notifications ram.now sheet.old sheet.new }
{
    polled(Turn::GoingOff, state, ram, sheet)
}
