// Write on a state wherever its places stand, behind its gate: the frame is judged, the core takes the write, and the frame is laid down whole.
ghost use Rattle.std.specs.Prelude.{◌≡◌, ◌≤◌, ◌^◌};
ghost use Rattle.rules.specs.Calls.{written};
ghost use Rattle.rules.specs.Can.{can_format};
ghost use Rattle.rules.specs.Chip.{chip};
ghost use Rattle.core_answers.specs.Answer.{verdict_reason};
ghost use Rattle.core_answers.specs.Reply.{write_answer};
ghost use Rattle.core_answers.specs.Performed.{Performed};
ghost use Rattle.core_services.specs.Room.{Room};
ghost use Rattle.core_places.specs.Names.{SameNames};
ghost use Rattle.can_state.specs.View.{state_of};
ghost use Rattle.can_transmission.specs.Lent.{WriteRoom};

use crate::judge::judge_frame;
use can_layout::object::lay_down;
use can_state::settings_list::SettingsList;
use core_answers::reported::Reported;
use core_answers::verdict::Verdict;
use core_places::set_places::SetMailboxes;
use core_services::number::WRITE;
use core_services::report::report;
use core_services::write::take_write;

// The frame is judged by the settings of the object that names the pool, and laid down with the padding of the member that takes it.
pub fn write_lent<K: SetMailboxes, S: SettingsList>(
    gate: Verdict,
    core: &mut K,
    settings: &S,
    ram: &mut [u8],
    sheet: &mut [u32],
    object: u32,
    handle: u16,
    identifier: u32,
    sdu: &[u8],
) -> Reported<u32>
    requires room { Room (verdict_reason gate) sheet.old × (verdict_reason gate ≡ 0 → WriteRoom (K.core core.old).object_count ram.old) }
    requires places { (K.objects core.old ≤ 2 ^ 32) × (verdict_reason gate ≡ 0 → (K.core core.old).object_count ≤ K.objects core.old) }
    ensures performed { Performed
        (written chip can_format (verdict_reason gate) (state_of (K.core core.old) (S.places settings.now)) ram.old object handle
        (record { identifier = identifier; sdu = sdu.now }))
        (verdict_reason result.reply) (write_answer result.reply) (state_of (K.core core.new) (S.places settings.now))
        result.notifications ram.new sheet.old sheet.new }
    ensures places { (K.controllers core.new ≡ K.controllers core.old) × (K.objects core.new ≡ K.objects core.old) × (K.error_places core.new ≡ K.error_places core.old) }
    ensures memory { SameNames (K.memory core.new) (K.memory core.old) }
{
    let frame = judge_frame(settings.settings(object as usize), identifier, sdu);
    let reply = take_write(gate, frame, core, object);
    match reply {
        Ok(member) => {
            let padding = settings.settings(member as usize).padding;
            lay_down(ram, member as usize, padding, handle, identifier, sdu);
            Reported {
                reply: Ok(member),
                notifications: 0,
            }
        }
        Err(r) => {
            let notifications = report(sheet, WRITE, r);
            Reported {
                reply: Err(r),
                notifications,
            }
        }
    }
}
