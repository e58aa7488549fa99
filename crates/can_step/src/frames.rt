// Write and Arrived, on a state that is valid.
ghost use Rattle.std.specs.Prelude.{◌≡◌, length};
ghost use Rattle.rules.specs.Calls as calls;
ghost use Rattle.rules.specs.Can.{can_format};
ghost use Rattle.rules.specs.Chip.{chip};
ghost use Rattle.can_state.specs.View.{view};
ghost use Rattle.history.specs.Replay.{whole, whole_of};
ghost use Rattle.can_step.specs.Stepped.{Stands};

use can_arrivals::lent::arrive_lent;
use can_chip::{RAM_SIZE, SHEET_SIZE};
use can_state::state::State;
use can_transmission::lent::write_lent;
use core_answers::gate::full_gate;

// Write.
pub fn write(
    state: &mut State,
    ram: &mut [u8],
    sheet: &mut [u32],
    object: u32,
    handle: u16,
    identifier: u32,
    sdu: &[u8],
)
    requires { Stands state.old }
    ensures { whole (view state.new) ram.new sheet.new
        ≡ whole_of
        (calls.write chip can_format (view state.old) (length sheet.old) ram.old object handle (record { identifier = identifier; sdu = sdu.now }))
        sheet.old }
{
    let gate = full_gate(true, sheet.len(), SHEET_SIZE, ram.len(), RAM_SIZE);
    write_lent(
        gate,
        &mut state.core,
        &state.settings,
        ram,
        sheet,
        object,
        handle,
        identifier,
        sdu,
    );
}

// Arrived.
pub fn arrive(
    state: &mut State,
    ram: &mut [u8],
    sheet: &mut [u32],
    controller: u32,
    identifier: u32,
    sdu: &[u8],
)
    requires { Stands state.old }
    ensures { whole (view state.new) ram.new sheet.new
        ≡ whole_of
        (calls.frame_arrived chip can_format (view state.old) (length sheet.old) ram.old controller (record { identifier = identifier; sdu = sdu.now }))
        sheet.old }
{
    let gate = full_gate(true, sheet.len(), SHEET_SIZE, ram.len(), RAM_SIZE);
    arrive_lent(
        gate,
        &mut state.core,
        &state.settings,
        ram,
        sheet,
        controller,
        identifier,
        sdu,
    );
}
