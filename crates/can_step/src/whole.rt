// Init and DeInit, which replace the whole state: they are the driver's own calls.
ghost use Rattle.std.specs.Prelude.{◌≡◌, length};
ghost use Rattle.rules.specs.Calls as calls;
ghost use Rattle.rules.specs.Can.{can_format};
ghost use Rattle.rules.specs.Chip.{chip};
ghost use Rattle.can_state.specs.View.{view};
ghost use Rattle.history.specs.Replay.{whole, whole_of};

use can_state::state::State;

// Init.
#[tactic(auto, using(crate::proofs::Gates::left_is))]
pub fn init(state: &mut State, ram: &mut [u8], sheet: &mut [u32], bytes: &[u8])
    ensures { whole (view state.new) ram.new sheet.new
        ≡ whole_of (calls.init chip can_format (view state.old) (length sheet.old) ram.old bytes.now) sheet.old }
{
    let called = can_services::init::init(*state, ram, sheet, bytes);
    *state = called.state;
}

// DeInit.
#[tactic(auto, using(crate::proofs::Gates::left_is))]
pub fn deinit(state: &mut State, ram: &mut [u8], sheet: &mut [u32])
    ensures { whole (view state.new) ram.new sheet.new
        ≡ whole_of (calls.deinit chip can_format (view state.old) (length sheet.old) ram.old) sheet.old }
{
    let called = can_services::deinit::deinit(*state, ram, sheet);
    *state = called.state;
}
