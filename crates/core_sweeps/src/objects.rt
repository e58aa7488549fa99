// The sweep over the objects, in rising order.
ghost use Rattle.std.specs.Prelude.{◌≡◌, true, ◌+◌, ◌*◌, ◌≤◌, ◌<◌, ◌^◌, length};
ghost use Rattle.rules.specs.Core.{mailbox_at, with_mailboxes};
ghost use Rattle.rules.specs.Polls as rules;
ghost use Rattle.laws.proofs.Bounds.{mailbox_busy, busy_count};
ghost use Rattle.core_layout.specs.Sheet.{words_each, view};
ghost use Rattle.core_layout.specs.Head.{head_size};
ghost use Rattle.core_places.specs.Names.{SameNames};
ghost use Rattle.core_sweeps.specs.Visits.{visit_of};
ghost use Rattle.core_sweeps.specs.Swept.{Told, Freed, Visited, Swept, Lent, boxes_from};

use crate::visit::{Visit, visit_due, visit_note};
use core_layout::notification::{Notification, put};
use core_places::set_places::SetMailboxes;

// Writes a notification behind the first told ones, and answers how many there are then.
pub fn tell(n: Notification, told: usize, sheet: &mut [u32]) -> usize
    requires { words_each * told + words_each ≤ length sheet.old }
    ensures { Told (view n) told sheet.old sheet.new result }
{
    put(sheet, told, n);
    told + 1
}

// An object is free again, and the notification tells of it.
fn free_object<K: SetMailboxes>(
    n: Notification,
    object: usize,
    core: &mut K,
    told: usize,
    sheet: &mut [u32],
) -> usize
    requires object_in_bounds { object < K.objects core.old }
    requires sheet_room { words_each * told + words_each ≤ length sheet.old }
    ensures freed { Freed (view n) object (K.core core.old).mailboxes (K.core core.new).mailboxes told sheet.old sheet.new result }
    ensures rest { K.core core.new ≡ with_mailboxes (K.core core.old) (K.core core.new).mailboxes }
    ensures places { (K.controllers core.new ≡ K.controllers core.old) × (K.objects core.new ≡ K.objects core.old) × (K.error_places core.new ≡ K.error_places core.old) }
    ensures memory { SameNames (K.memory core.new) (K.memory core.old) }
{
    core.free_mailbox(object);
    tell(n, told, sheet)
}

// One object's visit: where it is due it is told of and free again, else all stays as it was.
fn visit_one<K: SetMailboxes>(
    visit: Visit,
    object: usize,
    core: &mut K,
    told: usize,
    size: usize,
    two_bytes: bool,
    ram: &[u8],
    sheet: &mut [u32],
) -> usize
    requires object_in_bounds { object < K.objects core.old }
    requires object_bound { (object < 2 ^ 32) × (head_size ≤ size) × (size * object + size ≤ length ram.now) }
    requires sheet_room { mailbox_busy (mailbox_at (K.core core.old).mailboxes object) ≡ true → words_each * told + words_each ≤ length sheet.old }
    ensures visited { Visited (visit_of visit size two_bytes (K.core core.old).owners ram.now) object (K.core core.old).mailboxes
        (K.core core.new).mailboxes told sheet.old sheet.new result }
    ensures rest { K.core core.new ≡ with_mailboxes (K.core core.old) (K.core core.new).mailboxes }
    ensures places { (K.controllers core.new ≡ K.controllers core.old) × (K.objects core.new ≡ K.objects core.old) × (K.error_places core.new ≡ K.error_places core.old) }
    ensures memory { SameNames (K.memory core.new) (K.memory core.old) }
{
    let m = core.read_mailbox(object);
    if visit_due(visit, core.read_owner(object).controller, m) {
        let n = visit_note(visit, m, object, size, two_bytes, ram);
        free_object(n, object, core, told, sheet)
    } else {
        told
    }
}

// All objects in use, the first count, behind the notifications that are told already.
pub fn visit_all<K: SetMailboxes>(
    visit: Visit,
    count: usize,
    core: &mut K,
    from: usize,
    size: usize,
    two_bytes: bool,
    ram: &[u8],
    sheet: &mut [u32],
) -> usize
    requires count_in_bounds { count ≤ K.objects core.old }
    requires lent { Lent size count ram.now }
    requires sheet_room { words_each * (from + busy_count count (K.core core.old).mailboxes) ≤ length sheet.old }
    ensures swept { Swept (rules.visit_all (visit_of visit size two_bytes (K.core core.old).owners ram.now) count (boxes_from (K.core core.old).mailboxes))
        from sheet.old sheet.new (K.core core.new).mailboxes result }
    ensures rest { K.core core.new ≡ with_mailboxes (K.core core.old) (K.core core.new).mailboxes }
    ensures places { (K.controllers core.new ≡ K.controllers core.old) × (K.objects core.new ≡ K.objects core.old) × (K.error_places core.new ≡ K.error_places core.old) }
    ensures memory { SameNames (K.memory core.new) (K.memory core.old) }
{
    let mut told = from;
    for h in 0..count {
        told = visit_one(visit, h, core, told, size, two_bytes, ram, sheet);
    }
    told
}
