// Whose the objects of a configuration are.
ghost use Rattle.std.specs.Prelude.{◌≡◌, cond, ltb, length};
ghost use Rattle.rules.specs.Repeat.{all_below};
ghost use Rattle.rules.specs.Core as rules;
ghost use Rattle.core_places.specs.View.{view_owner};

use core_places::owner::{Owner, owner_unused, owner_valid};
use core_places::owners::Owners;

// The owner of object h, by whether it is in use.
fn owner_place_valid(controller_count: usize, object_count: usize, h: usize, o: Owner) -> bool
    ensures { result ≡ cond (ltb h object_count) (rules.owner_valid controller_count (view_owner o)) (rules.owner_unused (view_owner o)) }
{
    if h < object_count {
        owner_valid(controller_count, o)
    } else {
        owner_unused(o)
    }
}

// Each object in use names a controller in use, and each other place is at rest.
#[tactic(auto, using(core_validity::proofs::Laws::all_below_more), unfolding(rules::specs::Repeat::all_below))]
pub fn owners_valid<const N: usize>(
    controller_count: usize,
    object_count: usize,
    owners: &Owners<N>,
) -> bool
    ensures valid { result ≡ all_below N (rules.owner_place_valid controller_count object_count owners.now) }
    ensures places { length owners.now ≡ N }
{
    let mut ok = true;
    for h in 0..owners.len() {
        ok = ok & owner_place_valid(controller_count, object_count, h, owners.read(h));
    }
    ok
}
