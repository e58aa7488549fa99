// What becomes of an arrival that passes its checks: it is stored, lost or unwanted.
ghost use Rattle.std.specs.Prelude.{◌≡◌, false, List, ℕ, ◌≤◌, ◌<◌, length};
ghost use Rattle.rules.specs.Limits.{ram_size};
ghost use Rattle.rules.specs.State as states;
ghost use Rattle.rules.specs.Calls as rules;
ghost use Rattle.rules.specs.Can.{can_format, longest_fd};
ghost use Rattle.rules.specs.Chip.{chip};
ghost use Rattle.core_answers.specs.Answer.{verdict_reason};
ghost use Rattle.core_answers.specs.Reply.{arrival_answer};
ghost use Rattle.core_answers.specs.Performed.{Performed};
ghost use Rattle.core_layout.specs.Sheet.{words_each};
ghost use Rattle.core_events.specs.Pick.{view_pick};
ghost use Rattle.core_places.specs.Names.{SameNames};
ghost use Rattle.can_state.specs.View.{state_of};
ghost use Rattle.can_arrivals.specs.Lent.{ArrivalRoom};

use crate::choice::choose;
use can_layout::object::lay_down;
use can_state::settings_list::SettingsList;
use core_answers::reply::Arrival;
use core_answers::reported::Reported;
use core_events::pick::{Picked, filled_mailbox};
use core_layout::notification::{Notification, put};
use core_places::set_places::SetMailboxes;

// The frame is laid down in the object with handle zero, and the object is full. The sheet is not touched.
fn store<K: SetMailboxes, S: SettingsList>(
    core: &mut K,
    settings: &S,
    ram: &mut [u8],
    object: u32,
    identifier: u32,
    sdu: &[u8],
) -> Reported<Arrival>
    requires object_lt_objects { (object < chip.objects) × (object < K.objects core.old) }
    requires ram_len { (length ram.old ≡ ram_size chip) × (length sdu.now ≤ longest_fd) }
    ensures performed { (sheet : List ℕ)
        → Performed
        (rules.stored chip can_format (state_of (K.core core.old) (S.places settings.now)) ram.old (record { identifier = identifier; sdu = sdu.now }) object)
        (verdict_reason result.reply) (arrival_answer result.reply) (state_of (K.core core.new) (S.places settings.now)) result.notifications ram.new sheet sheet }
    ensures places { (K.controllers core.new ≡ K.controllers core.old) × (K.objects core.new ≡ K.objects core.old) × (K.error_places core.new ≡ K.error_places core.old) }
    ensures memory { SameNames (K.memory core.new) (K.memory core.old) }
{
    let h = object as usize;
    let padding = settings.settings(h).padding;
    lay_down(ram, h, padding, 0, identifier, sdu);
    core.set_mailbox(h, filled_mailbox());
    Reported {
        reply: Ok(Arrival::Stored(object)),
        notifications: 0,
    }
}

// No empty object took the frame. If a full one fits, the frame is lost, and a runtime error names that object; else it is unwanted.
fn not_stored(sheet: &mut [u32], full: Option<Picked>) -> Reported<Arrival>
    requires { words_each ≤ length sheet.old }
    ensures { (s : states.State can_format) (ram : List ℕ)
        → Performed (rules.not_stored chip can_format s ram (view_pick full))
        (verdict_reason result.reply) (arrival_answer result.reply) s result.notifications ram sheet.old sheet.new }
{
    match full {
        None => Reported {
            reply: Ok(Arrival::Unwanted),
            notifications: 0,
        },
        Some(best) => {
            put(
                sheet,
                0,
                Notification::DataLost {
                    object: best.number,
                },
            );
            Reported {
                reply: Ok(Arrival::Lost),
                notifications: 1,
            }
        }
    }
}

// The frame goes to the best empty object that fits, where there is one.
pub fn received<K: SetMailboxes, S: SettingsList>(
    core: &mut K,
    settings: &S,
    ram: &mut [u8],
    sheet: &mut [u32],
    controller: usize,
    identifier: u32,
    sdu: &[u8],
) -> Reported<Arrival>
    requires room { ArrivalRoom (K.core core.old).object_count ram.old sheet.old × (length sdu.now ≤ longest_fd) }
    requires places { ((K.core core.old).object_count ≤ K.objects core.old) × ((K.core core.old).object_count ≤ S.readable settings.now) }
    ensures performed { Performed
        (rules.received chip can_format (state_of (K.core core.old) (S.places settings.now)) ram.old controller
        (record { identifier = identifier; sdu = sdu.now })
        (rules.best_object chip can_format (state_of (K.core core.old) (S.places settings.now)) controller
        (record { identifier = identifier; sdu = sdu.now }) false))
        (verdict_reason result.reply) (arrival_answer result.reply) (state_of (K.core core.new) (S.places settings.now))
        result.notifications ram.new sheet.old sheet.new }
    ensures places { (K.controllers core.new ≡ K.controllers core.old) × (K.objects core.new ≡ K.objects core.old) × (K.error_places core.new ≡ K.error_places core.old) }
    ensures memory { SameNames (K.memory core.new) (K.memory core.old) }
{
    let choice = choose(core, settings, controller, identifier);
    match choice.empty {
        Some(best) => store(core, settings, ram, best.number, identifier, sdu),
        None => not_stored(sheet, choice.full),
    }
}
