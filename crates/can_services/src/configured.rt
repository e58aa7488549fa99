// The state that Init leaves.
ghost use Rattle.std.specs.Prelude.{◌≡◌, cond, ltb};
ghost use Rattle.rules.specs.Repeat.{list_below};
ghost use Rattle.rules.specs.Core.{idle_controller};
ghost use Rattle.rules.specs.Services as services;
ghost use Rattle.rules.specs.Calls as rules;
ghost use Rattle.rules.specs.Can.{can_format};
ghost use Rattle.rules.specs.Chip.{chip};
ghost use Rattle.core_places.specs.View.{view_controller};
ghost use Rattle.can_state.specs.View.{view};
ghost use Rattle.can_config.specs.View.{view_setup};

use can_chip::CONTROLLERS;
use can_config::setup::Setup;
use can_state::state::State;
use core_places::controller::{Controller, NO_REQUEST, STOPPED};
use core_places::controllers::Controllers;
use core_places::core_state::Core;
use core_places::error_places::ErrorPlaces;
use core_places::mailboxes::Mailboxes;
use core_places::range::limited;

// A controller in use.
fn stopped_controller() -> Controller
    ensures { view_controller result ≡ services.stopped_controller }
{
    Controller {
        mode: STOPPED,
        requested_mode: NO_REQUEST,
        bus_off: false,
    }
}

// The first count controllers are STOPPED, and the other places at rest.
#[tactic(auto, unfolding(rules::specs::Repeat::list_below))]
fn stopped_controllers(count: usize) -> Controllers<CONTROLLERS>
    ensures { result ≡ list_below chip.controllers (λ c. cond (ltb c count) services.stopped_controller idle_controller) }
{
    let end = limited(count, CONTROLLERS);
    let mut controllers = Controllers::idle();
    for c in 0..end {
        controllers.set(c, stopped_controller());
    }
    controllers
}

// The controllers in use are STOPPED, nothing is requested of them, they have no errors, and nothing waits in any object.
pub fn configured_state(setup: Setup) -> State
    ensures { view result ≡ rules.configured_state chip can_format (view_setup setup) }
{
    State {
        core: Core {
            initialised: true,
            controller_count: setup.controller_count,
            object_count: setup.object_count,
            controllers: stopped_controllers(setup.controller_count),
            errors: ErrorPlaces::none(),
            owners: setup.owners,
            mailboxes: Mailboxes::empty(),
        },
        settings: setup.settings,
    }
}
