// The pools of sending objects: whether any is shared at all; and object by object in rising order, the lowest member, and the test of an
// object beside it.
ghost use Rattle.std.specs.Prelude.{◌≡◌, ◌≤◌, ◌<◌, ◌^◌, cond};
ghost use Rattle.core_validity.specs.Pools.{lowest_seen, table_with, pool_beside, own_pools};

use core_places::lists::OwnerList;
use core_places::range::limited;

// The number of an object that is its own pool; 0 where it receives.
fn own_pool(receiving: bool, h: usize) -> u8
    requires { h < 2 ^ 8 }
    ensures { result ≡ cond receiving 0 h }
{
    if receiving { 0 } else { h as u8 }
}

// Whether no pool is shared: each object is its own, under its own number, which is a byte.
#[tactic(auto, using(crate::proofs::Laws::all_below_more), unfolding(rules::specs::Repeat::all_below))]
pub fn own_pools<W: OwnerList>(owners: &W, count: usize) -> bool
    requires { (count ≤ W.size owners.now) × (count ≤ 2 ^ 8) }
    ensures { result ≡ own_pools (W.places owners.now) count }
{
    let mut ok = true;
    for h in 0..count {
        let o = owners.read(h);
        ok = ok & (o.pool == own_pool(o.receiving, h));
    }
    ok
}

// The lowest member of object h's pool, where the table has it among the objects before h; the table then has it for those behind h too. The
// object itself where it receives, or has a pool that the table has no place for.
pub fn lowest_member<W: OwnerList>(owners: &W, table: &mut [usize], h: usize) -> usize
    requires { h < W.size owners.now }
    ensures { (result ≡ lowest_seen (W.places owners.now) table.old h)
        × (table.new ≡ table_with (W.places owners.now) table.old h) }
{
    let o = owners.read(h);
    let pool = o.pool as usize;
    if !o.receiving & (pool < table.len()) {
        let lowest = limited(table[pool], h);
        table[pool] = lowest;
        return lowest;
    }
    h
}

// The pool of object h: one of as many as there are places, with the controller of its lowest member; 0 where the object receives.
pub fn pool_valid<W: OwnerList>(owners: &W, h: usize, lowest: usize) -> bool
    requires { (h < W.size owners.now) × (lowest < W.size owners.now) }
    ensures { result ≡ pool_beside (W.size owners.now) (W.places owners.now) h lowest }
{
    let o = owners.read(h);
    let pool = o.pool as usize;
    if o.receiving {
        return pool == 0;
    }
    (pool < owners.len()) & (o.controller == owners.read(lowest).controller)
}
