// The events that carry no frame, on a state that is valid.
ghost use Rattle.std.specs.Prelude.{◌≡◌, List, ℕ, length};
ghost use Rattle.rules.specs.Calls as calls;
ghost use Rattle.rules.specs.Can.{can_format};
ghost use Rattle.rules.specs.Chip.{chip};
ghost use Rattle.can_state.specs.View.{view};
ghost use Rattle.history.specs.Replay.{whole, whole_of};
ghost use Rattle.can_step.specs.Stepped.{Stands};

use can_chip::SHEET_SIZE;
use can_state::state::State;
use core_answers::gate::{sheet_gate, state_gate};

// TxComplete.
pub fn sent(state: &mut State, object: u32)
    requires { Stands state.old }
    ensures { (ram sheet : List ℕ) → whole (view state.new) ram sheet
        ≡ whole_of (calls.tx_complete chip can_format (view state.old) ram object) sheet }
{
    let gate = state_gate(true);
    let _ = core_events::tx_complete::tx_complete(gate, &mut state.core, object);
}

// BusOffDetected.
pub fn off(state: &mut State, controller: u32)
    requires { Stands state.old }
    ensures { (ram sheet : List ℕ) → whole (view state.new) ram sheet
        ≡ whole_of (calls.bus_off_detected chip can_format (view state.old) ram controller) sheet }
{
    let gate = state_gate(true);
    let _ = core_events::bus_off_detected::bus_off_detected(gate, &mut state.core, controller);
}

// Error counts.
pub fn counted(state: &mut State, sheet: &mut [u32], controller: u32, transmit: u32, receive: u32)
    requires { Stands state.old }
    ensures { (ram : List ℕ) → whole (view state.new) ram sheet.new
        ≡ whole_of (calls.errors_counted chip can_format (view state.old) (length sheet.old) ram controller transmit receive) sheet.old }
{
    let gate = sheet_gate(true, sheet.len(), SHEET_SIZE);
    core_events::errors_counted::errors_counted(
        gate,
        &mut state.core,
        sheet,
        controller,
        transmit,
        receive,
    );
}
