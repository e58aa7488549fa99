// The pools of a configuration that was read.
ghost use Rattle.std.specs.Prelude.{◌≡◌, ◌≤◌};
ghost use Rattle.rules.specs.Chip as rules;
ghost use Rattle.can_config.specs.View.{view_setup};
ghost use Rattle.can_config.specs.Reading.{pools_judged};

use crate::setup::Setup;

// Whether each pool is valid and its members agree in controller, payload and padding.
pub fn pools_agree(setup: &Setup) -> bool
    requires { setup.now.object_count ≤ (rules.chip).objects }
    ensures { result ≡ pools_judged (view_setup setup.now) }
{
    can_state::agreement::pools_agree(&setup.owners, &setup.settings, setup.object_count)
}
