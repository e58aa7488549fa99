// Write: takes a frame into a member of a pool of sending objects, where it waits to be sent.
ghost use Rattle.std.specs.Prelude.{length};
ghost use Rattle.rules.specs.Calls as rules;
ghost use Rattle.rules.specs.Can.{can_format};
ghost use Rattle.rules.specs.Chip.{chip};
ghost use Rattle.core_answers.specs.Answer.{verdict_reason};
ghost use Rattle.core_answers.specs.Reply.{write_answer};
ghost use Rattle.core_answers.specs.Performed.{Performed};
ghost use Rattle.can_state.specs.View.{view};

use crate::lent::write_lent;
use can_chip::{RAM_SIZE, SHEET_SIZE};
use can_state::called::Called;
use can_state::state::State;
use can_state::validity::valid;
use core_answers::gate::full_gate;

// Lays the frame down whole in the lowest free member of the pool that the object names, on a STARTED controller. Any object may be named.
pub fn write(
    state: State,
    ram: &mut [u8],
    sheet: &mut [u32],
    object: u32,
    handle: u16,
    identifier: u32,
    sdu: &[u8],
) -> Called<u32>
    ensures { Performed
        (rules.write chip can_format (view state) (length sheet.old) ram.old object handle
        (record { identifier = identifier; sdu = sdu.now }))
        (verdict_reason result.reply) (write_answer result.reply) (view result.state) result.notifications ram.new sheet.old sheet.new }
{
    let mut next = state;
    let gate = full_gate(valid(state), sheet.len(), SHEET_SIZE, ram.len(), RAM_SIZE);
    let reported = write_lent(
        gate,
        &mut next.core,
        &next.settings,
        ram,
        sheet,
        object,
        handle,
        identifier,
        sdu,
    );
    Called {
        state: next,
        reply: reported.reply,
        notifications: reported.notifications,
    }
}
