// Which object sends next on a controller: in one pass, the best of those that compete, by the identifiers in the memory.
ghost use Rattle.std.specs.Prelude.{◌≡◌, ◌+◌, ◌*◌, ◌≤◌, ◌^◌, length, max};
ghost use Rattle.rules.specs.Chip.{chip};
ghost use Rattle.core_events.specs.Pick.{view_pick};
ghost use Rattle.can_arbitration.specs.Choice.{rank_in, best_waiting};

use can_chip::OBJECT_SIZE;
use can_frame::identifier::priority;
use core_events::next::competes;
use core_events::pick::{Picked, better};
use core_layout::head::identifier_at;
use core_places::places::CorePlaces;

// How the frame in an object ranks.
fn rank_at(ram: &[u8], object: usize) -> u32
    requires { chip.object_size * (object + 1) ≤ length ram.now }
    ensures { result ≡ rank_in ram.now object }
{
    priority(identifier_at(ram, OBJECT_SIZE, object))
}

// The best object in use that competes on the controller. The memory is read only of those that do.
pub fn choose<K: CorePlaces>(core: &K, ram: &[u8], controller: usize) -> Option<Picked>
    requires { ((K.core core.now).object_count ≤ 2 ^ 32)
        × ((K.core core.now).object_count ≤ max (K.objects core.now) (K.readable_objects core.now))
        × (chip.object_size * (K.core core.now).object_count ≤ length ram.now) }
    ensures { view_pick result ≡ best_waiting (K.core core.now) controller ram.now }
{
    let mut best = None;
    for h in 0..core.object_count() {
        let owner = core.read_owner(h);
        if competes(owner.controller, controller, core.read_mailbox(h)) {
            best = better(best, h as u32, true, rank_at(ram, h));
        }
    }
    best
}
