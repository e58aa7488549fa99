// 01's Arrived: a frame came in at a controller.
ghost use Rattle.std.specs.Prelude.{length};
ghost use Rattle.rules.specs.Calls as rules;
ghost use Rattle.rules.specs.Can.{can_format};
ghost use Rattle.rules.specs.Chip.{chip};
ghost use Rattle.core_answers.specs.Answer.{verdict_reason};
ghost use Rattle.core_answers.specs.Reply.{arrival_answer};
ghost use Rattle.core_answers.specs.Performed.{Performed};
ghost use Rattle.can_state.specs.View.{view};

use crate::lent::arrive_lent;
use can_chip::{RAM_SIZE, SHEET_SIZE};
use can_state::called::Called;
use can_state::state::State;
use can_state::validity::valid;
use core_answers::gate::full_gate;
use core_answers::reply::Arrival;

// Stores the frame in an object that fits, or answers that none does or that all which do are full. Any controller may be named.
pub fn frame_arrived(
    state: State,
    ram: &mut [u8],
    sheet: &mut [u32],
    controller: u32,
    identifier: u32,
    sdu: &[u8],
) -> Called<Arrival>
    ensures { Performed
        (rules.frame_arrived chip can_format (view state) (length sheet.old) ram.old controller
        (record { identifier = identifier; sdu = sdu.now }))
        (verdict_reason result.reply) (arrival_answer result.reply) (view result.state) result.notifications ram.new sheet.old sheet.new }
{
    let mut next = state;
    let gate = full_gate(valid(state), sheet.len(), SHEET_SIZE, ram.len(), RAM_SIZE);
    let reported = arrive_lent(
        gate,
        &mut next.core,
        &next.settings,
        ram,
        sheet,
        controller,
        identifier,
        sdu,
    );
    Called {
        state: next,
        reply: reported.reply,
        notifications: reported.notifications,
    }
}
