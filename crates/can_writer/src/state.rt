// The configuration that a driver state has.
ghost use Rattle.std.specs.Prelude.{◌≡◌};
ghost use Rattle.can_state.specs.View.{view};
ghost use Rattle.can_config.specs.View.{view_setup};
ghost use Rattle.can_writer.specs.State.{configuration_in};

use can_config::setup::Setup;
use can_state::state::State;

pub fn configuration_of(state: State) -> Setup
    ensures { view_setup result ≡ configuration_in (view state) }
{
    let core = state.core;
    Setup {
        controller_count: core.controller_count,
        object_count: core.object_count,
        owners: core.owners,
        settings: state.settings,
    }
}
