// The errors of all controllers.
ghost use Rattle.std.specs.Prelude.{◌≡◌, ◌≤◌};
ghost use Rattle.core_validity.specs.Tests as tests;

use core_places::errors::{errors_none, errors_valid};
use core_places::lists::{ControllerList, ErrorList};
use core_places::range::limited;

// The errors of each controller in use are valid for it.
#[tactic(auto, using(crate::proofs::Laws::all_below_more), unfolding(rules::specs::Repeat::all_below))]
fn errors_suit<K: ControllerList, E: ErrorList>(controllers: &K, errors: &E, count: usize) -> bool
    requires { (count ≤ K.size controllers.now) × (count ≤ E.size errors.now) }
    ensures { result ≡ tests.errors_suit (K.places controllers.now) (E.places errors.now) count }
{
    let mut ok = true;
    for c in 0..count {
        let k = controllers.read(c);
        let e = errors.read(c);
        ok = ok & errors_valid(k, e);
    }
    ok
}

// The errors of each other place are at rest.
#[tactic(auto, using(crate::proofs::Laws::from_none, crate::proofs::Laws::from_more))]
fn errors_rest<E: ErrorList>(errors: &E, count: usize) -> bool
    requires { count ≤ E.size errors.now }
    ensures { result ≡ tests.errors_rest (E.places errors.now) count }
{
    let mut ok = true;
    for c in count..errors.len() {
        let e = errors.read(c);
        ok = ok & errors_none(e);
    }
    ok
}

// The errors of every place, where so many controllers are in use.
pub fn errors_places_valid<K: ControllerList, E: ErrorList>(
    controller_count: usize,
    controllers: &K,
    errors: &E,
) -> bool
    requires { E.size errors.now ≡ K.size controllers.now }
    ensures { result ≡ tests.errors_places_valid (K.size controllers.now) controller_count (K.places controllers.now) (E.places errors.now) }
{
    let end = limited(controller_count, errors.len());
    let suit = errors_suit(controllers, errors, end);
    let rest = errors_rest(errors, end);
    suit & rest
}
