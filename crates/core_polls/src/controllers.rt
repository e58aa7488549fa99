// The sweep over the controllers, in rising order.
ghost use Rattle.std.specs.Prelude.{◌≡◌, ◌+◌, ◌*◌, ◌≤◌, ◌<◌, ◌^◌, length};
ghost use Rattle.rules.specs.Core.{with_mailboxes};
ghost use Rattle.rules.specs.Polls as rules;
ghost use Rattle.laws.proofs.Bounds.{busy_count};
ghost use Rattle.core_layout.specs.Sheet.{words_each};
ghost use Rattle.core_places.specs.View.{view_controller};
ghost use Rattle.core_places.specs.Names.{SameNames};
ghost use Rattle.core_polls.specs.Turns.{turn_of};
ghost use Rattle.core_sweeps.specs.Swept.{Swept, Lent, boxes_from};
ghost use Rattle.core_polls.specs.Swept.{SweptAll, closed_if, turn_told};

use crate::turn::{Turn, entered, leaves_bus, turn_due, turn_note};
use core_places::controller::Controller;
use core_places::set_places::{SetControllers, SetMailboxes};
use core_sweeps::objects::{tell, visit_all};
use core_sweeps::visit::Visit;

// Closes the objects of a controller that leaves the bus.
fn close_if<K: SetMailboxes>(
    leaves: bool,
    controller: usize,
    core: &mut K,
    from: usize,
    size: usize,
    ram: &[u8],
    sheet: &mut [u32],
) -> usize
    requires count_in_bounds { (K.core core.old).object_count ≤ K.objects core.old }
    requires lent { Lent size (K.core core.old).object_count ram.now }
    requires sheet_room { words_each * (from + busy_count (K.core core.old).object_count (K.core core.old).mailboxes) ≤ length sheet.old }
    ensures rest { K.core core.new ≡ with_mailboxes (K.core core.old) (K.core core.new).mailboxes }
    ensures told { Swept (closed_if leaves size (K.core core.old) ram.now controller (boxes_from (K.core core.old).mailboxes))
        from sheet.old sheet.new (K.core core.new).mailboxes result }
    ensures places { (K.controllers core.new ≡ K.controllers core.old) × (K.objects core.new ≡ K.objects core.old) × (K.error_places core.new ≡ K.error_places core.old) }
    ensures memory { SameNames (K.memory core.new) (K.memory core.old) }
{
    if leaves {
        let count = core.object_count();
        visit_all(
            Visit::Occupied {
                controller: controller,
            },
            count,
            core,
            from,
            size,
            false,
            ram,
            sheet,
        )
    } else {
        from
    }
}

// Tells of a controller's turn: its objects are closed where it leaves the bus, and then its own notification follows.
fn tell_turn<K: SetMailboxes>(
    turn: Turn,
    k: Controller,
    controller: usize,
    core: &mut K,
    from: usize,
    size: usize,
    ram: &[u8],
    sheet: &mut [u32],
) -> usize
    requires controller_bound { controller < 2 ^ 32 }
    requires count_in_bounds { (K.core core.old).object_count ≤ K.objects core.old }
    requires lent { Lent size (K.core core.old).object_count ram.now }
    requires sheet_room { words_each * (from + busy_count (K.core core.old).object_count (K.core core.old).mailboxes) + words_each ≤ length sheet.old }
    ensures rest { K.core core.new ≡ with_mailboxes (K.core core.old) (K.core core.new).mailboxes }
    ensures told { Swept (turn_told (turn_of turn) size (K.core core.old) ram.now controller (view_controller k) (boxes_from (K.core core.old).mailboxes))
        from sheet.old sheet.new (K.core core.new).mailboxes result }
    ensures places { (K.controllers core.new ≡ K.controllers core.old) × (K.objects core.new ≡ K.objects core.old) × (K.error_places core.new ≡ K.error_places core.old) }
    ensures memory { SameNames (K.memory core.new) (K.memory core.old) }
{
    let leaves = leaves_bus(turn, k);
    let told = close_if(leaves, controller, core, from, size, ram, sheet);
    let n = turn_note(turn, controller as u32, k);
    tell(n, told, sheet)
}

// One controller's turn: where it is due it is told of and enters its next mode, else all stays as it was.
fn turn_one<K: SetControllers + SetMailboxes>(
    turn: Turn,
    controller: usize,
    core: &mut K,
    from: usize,
    size: usize,
    ram: &[u8],
    sheet: &mut [u32],
) -> usize
    requires controller_bound { (controller < 2 ^ 32) × (controller < K.controllers core.old) }
    requires count_in_bounds { (K.core core.old).object_count ≤ K.objects core.old }
    requires lent { Lent size (K.core core.old).object_count ram.now }
    requires sheet_room { words_each * (from + busy_count (K.core core.old).object_count (K.core core.old).mailboxes) + words_each ≤ length sheet.old }
    ensures done { SweptAll (K.core core.old)
        (rules.turn_one size (turn_of turn) (K.core core.old) ram.now controller (rules.sweep_of (K.core core.old)))
        from sheet.old sheet.new (K.core core.new) result }
    ensures places { (K.controllers core.new ≡ K.controllers core.old) × (K.objects core.new ≡ K.objects core.old) × (K.error_places core.new ≡ K.error_places core.old) }
    ensures memory { SameNames (K.memory core.new) (K.memory core.old) }
{
    let k = core.read_controller(controller);
    if turn_due(turn, k) {
        let next = entered(turn, k);
        core.set_controller(controller, next);
        tell_turn(turn, k, controller, core, from, size, ram, sheet)
    } else {
        from
    }
}

// All controllers in use, in rising order.
pub fn turn_all<K: SetControllers + SetMailboxes>(
    turn: Turn,
    core: &mut K,
    size: usize,
    ram: &[u8],
    sheet: &mut [u32],
) -> usize
    requires controllers_in_bounds { ((K.core core.old).controller_count ≤ 2 ^ 32) × ((K.core core.old).controller_count ≤ K.controllers core.old) }
    requires objects_in_bounds { (K.core core.old).object_count ≤ K.objects core.old }
    requires lent { Lent size (K.core core.old).object_count ram.now }
    requires sheet_room { words_each * ((K.core core.old).controller_count + (K.core core.old).object_count) ≤ length sheet.old }
    ensures done { SweptAll (K.core core.old) (rules.turn_all size (turn_of turn) (K.core core.old) ram.now)
        0 sheet.old sheet.new (K.core core.new) result }
    ensures places { (K.controllers core.new ≡ K.controllers core.old) × (K.objects core.new ≡ K.objects core.old) × (K.error_places core.new ≡ K.error_places core.old) }
    ensures memory { SameNames (K.memory core.new) (K.memory core.old) }
{
    let mut told = 0;
    for c in 0..core.controller_count() {
        told = turn_one(turn, c, core, told, size, ram, sheet);
    }
    told
}
