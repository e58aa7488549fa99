// Calls in a row: what several public calls leave is what the claim about lists of calls speaks of.
#![tactic(auto)]

ghost use Rattle.std.specs.Prelude.{◌<◌, ◌^◌};
ghost use Rattle.can_composed.specs.Plan.{plan, Reaches};

use can::State;

// Initialises the driver, starts controller 0 and writes a frame. The contract names the list of these four calls, and says that the
// state and the memory are those which the list leaves.
pub fn start_and_write(
    ram: &mut [u8],
    sheet: &mut [u32],
    bytes: &[u8],
    object: u32,
    handle: u16,
    identifier: u32,
    sdu: &[u8],
) -> State
    ensures { (fits : handle < 2 ^ 16)
        → Reaches (plan sheet.old bytes.now object handle fits (record { identifier = identifier; sdu = sdu.now }))
        ram.old result ram.new }
{
    let called = can::init(can::initial_state(), ram, sheet, bytes);
    let asked = can::set_controller_mode(called.state, sheet, 0, 1);
    let polled = can::main_function_mode(asked.state, ram, sheet);
    let written = can::write(polled.state, ram, sheet, object, handle, identifier, sdu);
    written.state
}
