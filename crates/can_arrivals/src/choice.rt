// Which object an arriving frame goes to: in one pass, the best among the empty ones and the best among the full ones.
ghost use Rattle.std.specs.Prelude.{List, ℕ, ◌≤◌, ◌^◌, max};
ghost use Rattle.rules.specs.Can.{filter_accepts};
ghost use Rattle.can_state.specs.View.{state_of};
ghost use Rattle.can_arrivals.specs.Choice.{Compared, Chosen};

use can_frame::filter::filter_accepts;
use can_state::settings::Settings;
use can_state::settings_list::SettingsList;
use core_events::pick::{Picked, better};
use core_places::places::CorePlaces;

// The best object so far among the empty ones, and among the full ones, where there is one.
#[derive(Clone, Copy)]
pub struct Choice {
    pub empty: Option<Picked>,
    pub full: Option<Picked>,
}

// All filters rank alike.
const RANK: u32 = 0;

// An object that the frame may go to, against the best so far.
fn compare(best: Choice, identifier: u32, object: u32, full: bool, s: Settings) -> Choice
    ensures { Compared object (filter_accepts identifier s.code s.mask s.payload) full best result }
{
    let accepts = filter_accepts(identifier, s.code, s.mask, s.payload as u32);
    if full {
        Choice {
            full: better(best.full, object, accepts, RANK),
            ..best
        }
    } else {
        Choice {
            empty: better(best.empty, object, accepts, RANK),
            ..best
        }
    }
}

// The best objects in use for a frame with this identifier, whatever its data. Owner and kind are asked before the filter: most objects belong
// to another controller or send, and then nothing more is read of them.
pub fn choose<K: CorePlaces, S: SettingsList>(
    core: &K,
    settings: &S,
    controller: usize,
    identifier: u32,
) -> Choice
    requires { ((K.core core.now).object_count ≤ 2 ^ 32)
        × ((K.core core.now).object_count ≤ max (K.objects core.now) (K.readable_objects core.now))
        × ((K.core core.now).object_count ≤ S.readable settings.now) }
    ensures { (sdu : List ℕ)
        → Chosen (state_of (K.core core.now) (S.places settings.now)) controller (record { identifier = identifier; sdu = sdu }) result }
{
    let mut best = Choice {
        empty: None,
        full: None,
    };
    for h in 0..core.object_count() {
        let owner = core.read_owner(h);
        let own = owner.receiving & (owner.controller as usize == controller);
        if own {
            let full = core.read_mailbox(h).rx_full;
            best = compare(best, identifier, h as u32, full, settings.read_settings(h));
        }
    }
    best
}
