// One call on a lent state.
ghost use Rattle.rules.specs.Can.{can_format};
ghost use Rattle.rules.specs.Chip.{chip};
ghost use Rattle.history.specs.Call.{performed};
ghost use Rattle.can_state.specs.View.{view};
ghost use Rattle.history.specs.Replay.{whole_of};
ghost use Rattle.can_step.specs.Stepped.{Stands, Stepped};
ghost use Rattle.can_step.specs.Called.{call_of};

use crate::events::{counted, off, sent};
use crate::frames::{arrive, write};
use crate::polls::{controllers, objects};
use crate::services::{ask, set_mode};
use crate::whole::{deinit, init};
use can_state::state::State;
use core_answers::question::Question;
use core_polls::turn::Turn;
use core_sweeps::visit::Visit;

// Makes the call of this kind.
pub fn step(
    kind: u8,
    place: u32,
    value: u32,
    handle: u16,
    bytes: &[u8],
    state: &mut State,
    ram: &mut [u8],
    sheet: &mut [u32],
)
    requires { Stands state.old }
    ensures { Stepped
        (whole_of (performed chip can_format (call_of sheet.old place value handle bytes.now kind) (view state.old) ram.old) sheet.old)
        state.new ram.new sheet.new }
{
    match kind {
        0 => init(state, ram, sheet, bytes),
        1 => deinit(state, ram, sheet),
        2 => set_mode(state, sheet, place, value),
        3 => ask(Question::Mode, state, sheet, place),
        4 => write(state, ram, sheet, place, handle, value, bytes),
        5 => objects(Visit::Sent, state, ram, sheet),
        6 => objects(Visit::Received, state, ram, sheet),
        7 => controllers(Turn::ModeChange, state, ram, sheet),
        8 => controllers(Turn::GoingOff, state, ram, sheet),
        9 => sent(state, place),
        10 => off(state, place),
        12 => ask(Question::ErrorState, state, sheet, place),
        13 => ask(Question::RxErrors, state, sheet, place),
        14 => ask(Question::TxErrors, state, sheet, place),
        15 => counted(state, sheet, place, value, handle as u32),
        _ => arrive(state, ram, sheet, place, value, bytes),
    }
}
