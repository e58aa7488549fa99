// A list of calls, made one after the other.
ghost use Rattle.std.specs.Prelude.{◌≡◌, ◌<◌};
ghost use Rattle.can_state.specs.View.{view};
ghost use Rattle.history.specs.Replay.{whole};
ghost use Rattle.can_step.specs.Stepped.{Stands, Stepped};
ghost use Rattle.can_replay.specs.Replayed.{events_in, event_count, made_at, all_replayed};
ghost use Rattle.can_replay.specs.View.{view_events};

use crate::events::Events;
use can_state::state::State;
use can_state::validity::valid;
use can_step::step::step;

// Makes the call of event i.
fn event(i: usize, events: &Events, state: &mut State, ram: &mut [u8], sheet: &mut [u32])
    requires i_bound { i < event_count (view_events events.now) }
    requires stands { Stands state.old }
    ensures { Stepped (made_at (view_events events.now) i (whole (view state.old) ram.old sheet.old)) state.new ram.new sheet.new }
{
    step(
        events.kinds[i],
        events.places[i],
        events.values[i],
        events.handles[i],
        events.part(i),
        state,
        ram,
        sheet,
    );
}

// Makes all calls, each on what the last one left.
#[tactic(auto, using(crate::proofs::Plays::plays_begin))]
fn play(events: &Events, state: &mut State, ram: &mut [u8], sheet: &mut [u32])
    requires { Stands state.old }
    ensures { whole (view state.new) ram.new sheet.new ≡ all_replayed (view_events events.now) (whole (view state.old) ram.old sheet.old) }
{
    for i in 0..events.len() {
        event(i, events, state, ram, sheet);
    }
}

// Makes all calls from this state. A state that is not valid stays as it is, and so does the memory: every call on it is refused.
pub fn replay(
    state: State,
    kinds: &[u8],
    places: &[u32],
    values: &[u32],
    handles: &[u16],
    starts: &[u32],
    ends: &[u32],
    data: &[u8],
    ram: &mut [u8],
    sheet: &mut [u32],
) -> State
    ensures { whole (view result) ram.new sheet.new
        ≡ all_replayed
        (events_in kinds.now places.now values.now handles.now starts.now ends.now
        «data».now)
        (whole (view state) ram.old sheet.old) }
{
    let mut next = state;
    let events = Events {
        kinds,
        places,
        values,
        handles,
        starts,
        ends,
        bytes: data,
    };
    if valid(state) {
        play(&events, &mut next, ram, sheet);
    }
    next
}
