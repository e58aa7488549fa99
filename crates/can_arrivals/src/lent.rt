// Arrived over a state wherever its places stand, behind its gate: the controller and the frame are judged, and a frame that passes is received.
ghost use Rattle.std.specs.Prelude.{◌≡◌, ◌≤◌};
ghost use Rattle.rules.specs.Calls as rules;
ghost use Rattle.rules.specs.Can.{can_format};
ghost use Rattle.rules.specs.Chip.{chip};
ghost use Rattle.core_answers.specs.Answer.{verdict_reason};
ghost use Rattle.core_answers.specs.Reply.{arrival_answer};
ghost use Rattle.core_answers.specs.Performed.{Performed};
ghost use Rattle.core_places.specs.Names.{SameNames};
ghost use Rattle.can_state.specs.View.{state_of};
ghost use Rattle.can_arrivals.specs.Lent.{ArrivalRoom};

use crate::judge::judge_frame;
use crate::received::received;
use can_state::settings_list::SettingsList;
use core_answers::reply::Arrival;
use core_answers::reported::Reported;
use core_answers::verdict::Verdict;
use core_events::on_bus::judge_on_bus;
use core_places::set_places::SetMailboxes;

pub fn arrive_lent<K: SetMailboxes, S: SettingsList>(
    gate: Verdict,
    core: &mut K,
    settings: &S,
    ram: &mut [u8],
    sheet: &mut [u32],
    controller: u32,
    identifier: u32,
    sdu: &[u8],
) -> Reported<Arrival>
    requires room { verdict_reason gate ≡ 0 → ArrivalRoom (K.core core.old).object_count ram.old sheet.old }
    requires places { verdict_reason gate ≡ 0
        → ((K.core core.old).object_count ≤ K.objects core.old) × ((K.core core.old).object_count ≤ S.readable settings.now) }
    ensures performed { Performed
        (rules.arrived chip can_format (verdict_reason gate) (state_of (K.core core.old) (S.places settings.now)) ram.old controller
        (record { identifier = identifier; sdu = sdu.now }))
        (verdict_reason result.reply) (arrival_answer result.reply) (state_of (K.core core.new) (S.places settings.now))
        result.notifications ram.new sheet.old sheet.new }
    ensures places { (K.controllers core.new ≡ K.controllers core.old) × (K.objects core.new ≡ K.objects core.old) × (K.error_places core.new ≡ K.error_places core.old) }
    ensures memory { SameNames (K.memory core.new) (K.memory core.old) }
{
    let c = controller as usize;
    let k = core.controller(c);
    let in_use = c < core.controller_count();
    let on_bus = judge_on_bus(core.initialised(), in_use, k);
    let frame = judge_frame(identifier, sdu.len());
    match gate.and(on_bus.and(frame)) {
        Ok(()) => received(core, settings, ram, sheet, c, identifier, sdu),
        Err(r) => Reported {
            reply: Err(r),
            notifications: 0,
        },
    }
}
