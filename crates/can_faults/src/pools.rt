// The rules of the pools, once every record is good by itself.
ghost use Rattle.std.specs.Prelude.{◌≡◌, ◌≤◌, ◌<◌, ◌^◌};
ghost use Rattle.rules.specs.Core.{owner_at};
ghost use Rattle.rules.specs.Chip as rules;
ghost use Rattle.can_config.specs.View.{view_setup};
ghost use Rattle.can_faults.specs.Fault.{pool_rule, pools_fault};

use crate::fault::{Fault, PoolRule};
use can_config::setup::Setup;
use core_validity::pools::lowest_member;

// One for each number that a byte can say, so that every pool has a place in the table, whatever its number.
const POOLS: usize = 256;

// The first rule that object h breaks beside another of its pool.
#[tactic(auto, unfolding(crate::specs::Fault::first_broken, crate::specs::Fault::pool_rules))]
fn pool_rule(setup: &Setup, h: usize, other: usize) -> Result<(), PoolRule>
    ensures rule { result ≡ pool_rule (view_setup setup.now) h other }
    ensures byte { (owner_at setup.now.owners h).pool < 2 ^ 8 }
{
    let owner = setup.owners.at(h);
    let settings = setup.settings.at(h);
    let beside = setup.settings.at(other);
    if owner.receiving {
        return Ok(());
    }
    if owner.controller != setup.owners.at(other).controller {
        return Err(PoolRule::Controller);
    }
    if settings.payload != beside.payload {
        return Err(PoolRule::Payload);
    }
    if settings.padding != beside.padding {
        return Err(PoolRule::Padding);
    }
    Ok(())
}

// The first object that differs from the lowest one of its pool, and the rule that it breaks.
pub fn pools_fault(setup: Setup) -> Result<(), Fault>
    requires { setup.object_count ≤ (rules.chip).objects }
    ensures { result ≡ pools_fault (view_setup setup) }
{
    let mut table = [POOLS; POOLS];
    for object in 0..setup.object_count {
        let lowest = lowest_member(&setup.owners, &mut table, object);
        pool_rule(&setup, object, lowest).map_err(|rule| Fault::Pool {
            rule,
            object,
            lowest,
        })?;
    }
    Ok(())
}
