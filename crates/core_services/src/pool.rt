// The pool that a write names, and the member that takes the frame.
ghost use Rattle.std.specs.Prelude.{◌≡◌, ◌≤◌, ◌<◌, eqb, max};
ghost use Rattle.rules.specs.Repeat.{lowest_or};
ghost use Rattle.rules.specs.Core as rules;
ghost use Rattle.core_services.specs.Pool.{free_of_pool};

use core_places::places::CorePlaces;

// Whether no object below h is a member of h's pool.
#[tactic(auto, using(laws::proofs::Repeat::all_below_more), unfolding(rules::specs::Repeat::all_below))]
fn is_lowest<K: CorePlaces>(core: &K, h: usize) -> bool
    requires { h < max (K.objects core.now) (K.readable_objects core.now) }
    ensures { result ≡ eqb (rules.lowest_of (K.core core.now).owners h) h }
{
    let pool = core.read_owner(h).pool;
    let mut none = true;
    for i in 0..h {
        let o = core.read_owner(i);
        none = none & !(!o.receiving & (o.pool == pool));
    }
    none
}

// Whether object h names a pool: it is in use, it sends, and it is the lowest of its pool. Any number may be asked for.
pub fn names_pool<K: CorePlaces>(core: &K, h: usize) -> bool
    requires { (K.core core.now).object_count ≤ max (K.objects core.now) (K.readable_objects core.now) }
    ensures { result ≡ rules.names_pool (K.core core.now) h }
{
    if h < core.object_count() {
        let lowest = is_lowest(core, h);
        !core.read_owner(h).receiving & lowest
    } else {
        false
    }
}

// The lowest free member of the pool with this number; h where none is free. From the highest object down, so that the last one found is the lowest.
pub fn member_of<K: CorePlaces>(core: &K, pool: u8, h: usize) -> usize
    requires { (K.core core.now).object_count ≤ max (K.objects core.now) (K.readable_objects core.now) }
    ensures { result ≡ lowest_or (K.core core.now).object_count (free_of_pool (K.core core.now) pool) h }
{
    let mut member = h;
    for i in (0..core.object_count()).rev() {
        let o = core.read_owner(i);
        if !o.receiving & (o.pool == pool) & !core.read_mailbox(i).tx_pending {
            member = i;
        }
    }
    member
}

// The lowest free member of the pool of object h; h where none is free.
pub fn free_member<K: CorePlaces>(core: &K, h: usize) -> usize
    requires { (K.core core.now).object_count ≤ max (K.objects core.now) (K.readable_objects core.now) }
    ensures { result ≡ rules.free_member (K.core core.now) h }
{
    member_of(core, core.owner(h).pool, h)
}
