// When a state is valid.
ghost use Rattle.std.specs.Prelude.{◌≡◌};
ghost use Rattle.rules.specs.State as rules;
ghost use Rattle.rules.specs.Can.{can_format};
ghost use Rattle.rules.specs.Chip.{chip};
ghost use Rattle.can_state.specs.View.{view};

use crate::agreement::pools_agree;
use crate::settings::settings_places_valid;
use crate::state::State;
use core_validity::errors::errors_places_valid;
use core_validity::validity::places_valid;

// Whether the state is one that the driver can be in: reason 41 applies to every other.
pub fn valid(s: State) -> bool
    ensures { result ≡ rules.valid chip can_format (view s) }
{
    let core = places_valid(&s.core);
    let settings = settings_places_valid(s.core.object_count, &s.core.owners, &s.settings);
    let pooled = pools_agree(&s.core.owners, &s.settings, s.core.object_count);
    let errors = errors_places_valid(s.core.controller_count, &s.core.controllers, &s.core.errors);
    core & settings & pooled & errors
}
