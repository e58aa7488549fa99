// The driver state: one value with a place for each controller and each hardware object.
ghost use Rattle.std.specs.Prelude.{◌≡◌};
ghost use Rattle.rules.specs.State as rules;
ghost use Rattle.rules.specs.Can.{can_format};
ghost use Rattle.rules.specs.Chip.{chip};
ghost use Rattle.can_state.specs.View.{view};

use crate::settings_places::SettingsPlaces;
use can_chip::{CONTROLLERS, OBJECTS};
use core_places::core_state::Core;
use std::marker::Model;

#[derive(Clone, Copy)]
pub struct State {
    pub core: Core<CONTROLLERS, OBJECTS>,
    // What is configured of each object's frames.
    pub settings: SettingsPlaces<OBJECTS>,
}

// The model forgets nothing, so that one state can go into two calls.
impl Model for State {
    ghost use Rattle.rules.specs.State as rules;
    ghost use Rattle.rules.specs.Can.{can_format};

    ghost Value = { rules.State can_format };

    ghost use Rattle.can_state.specs.Seen.{state_seen};

    ghost view = { state_seen };

    ghost inverse = { λ s. record { core = s.core; settings = s.settings } };
}

// The state before initialisation: everything is at rest.
pub fn initial_state() -> State
    ensures { view result ≡ rules.initial_state chip can_format }
{
    State {
        core: Core::initial(),
        settings: SettingsPlaces::unused(),
    }
}
