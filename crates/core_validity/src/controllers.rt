// All controllers.
ghost use Rattle.std.specs.Prelude.{◌≡◌, ◌≤◌};
ghost use Rattle.core_validity.specs.Tests as tests;

use core_places::controller::{controller_idle, controller_valid};
use core_places::lists::ControllerList;

// Each controller in use is valid.
#[tactic(auto, using(crate::proofs::Laws::all_below_more), unfolding(rules::specs::Repeat::all_below))]
pub fn controllers_valid<K: ControllerList>(controllers: &K, count: usize) -> bool
    requires { count ≤ K.size controllers.now }
    ensures { result ≡ tests.controllers_valid (K.places controllers.now) count }
{
    let mut ok = true;
    for c in 0..count {
        ok = ok & controller_valid(controllers.read(c));
    }
    ok
}

// Each controller that is not in use is at rest.
#[tactic(auto, using(crate::proofs::Laws::from_none, crate::proofs::Laws::from_more))]
pub fn controllers_idle<K: ControllerList>(controllers: &K, count: usize) -> bool
    requires { count ≤ K.size controllers.now }
    ensures { result ≡ tests.controllers_idle (K.places controllers.now) count }
{
    let mut ok = true;
    for c in count..controllers.len() {
        ok = ok & controller_idle(controllers.read(c));
    }
    ok
}
