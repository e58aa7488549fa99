// The tests of places.
ghost use Rattle.std.specs.Prelude.{◌≡◌, ◌≤◌, ◌<◌, ◌^◌, length, List, []};
ghost use Rattle.rules.specs.Errors.{Errors};
ghost use Rattle.core_places.specs.View.{limits_of};
ghost use Rattle.core_places.specs.Beside.{longest, controllers_beside, errors_beside, owners_beside, mailboxes_beside};
ghost use Rattle.core_validity.specs.Tests as tests;
ghost use Rattle.core_validity.specs.Pools.{own_pools, lowest_seen, table_with, pool_beside};
ghost use Rattle.core_lent.specs.Seen.{seen};

use core_places::slices::{ControllerSlices, ErrorSlices, MailboxSlices, OwnerSlices};

// The places of a core, but for its errors and its pools.
pub fn places_valid(
    initialised: bool,
    controller_count: usize,
    object_count: usize,
    modes: &[u8],
    requests: &[u8],
    marks: &[bool],
    controllers: &[u8],
    receivings: &[bool],
    pools: &[u8],
    pendings: &[bool],
    dones: &[bool],
    fulls: &[bool],
) -> bool
    requires { longest pendings.now dones.now fulls.now ≡ longest controllers.now receivings.now pools.now }
    ensures { (errors : List Errors)
        → result
        ≡ tests.places_valid (limits_of (longest modes.now requests.now marks.now) (longest controllers.now receivings.now pools.now))
        (seen initialised controller_count object_count (controllers_beside modes.now requests.now marks.now) errors
        (owners_beside controllers.now receivings.now pools.now) (mailboxes_beside pendings.now dones.now fulls.now)) }
{
    core_validity::validity::lists_valid(
        initialised,
        controller_count,
        object_count,
        &ControllerSlices {
            modes,
            requests,
            marks,
        },
        &OwnerSlices {
            controllers,
            receivings,
            pools,
        },
        &MailboxSlices {
            pendings,
            dones,
            fulls,
        },
    )
}

// Whether no pool is shared, by the kinds and the pools alone.
pub fn own_pools(receivings: &[bool], pools: &[u8], count: usize) -> bool
    requires { (length receivings.now ≡ length pools.now) × (count ≤ length pools.now) × (count ≤ 2 ^ 8) }
    ensures { result ≡ own_pools (owners_beside [] receivings.now pools.now) count }
{
    core_validity::pools::own_pools(
        &OwnerSlices {
            controllers: &[],
            receivings,
            pools,
        },
        count,
    )
}

// The lowest member of object h's pool, by the kinds and the pools alone.
pub fn lowest_member(receivings: &[bool], pools: &[u8], table: &mut [usize], h: usize) -> usize
    requires { (length receivings.now ≡ length pools.now) × (h < length pools.now) }
    ensures { (result ≡ lowest_seen (owners_beside [] receivings.now pools.now) table.old h)
        × (table.new ≡ table_with (owners_beside [] receivings.now pools.now) table.old h) }
{
    core_validity::pools::lowest_member(
        &OwnerSlices {
            controllers: &[],
            receivings,
            pools,
        },
        table,
        h,
    )
}

// The pool of object h beside its lowest member.
pub fn pool_valid(
    controllers: &[u8],
    receivings: &[bool],
    pools: &[u8],
    h: usize,
    lowest: usize,
) -> bool
    requires { (h < length controllers.now) × (lowest < length controllers.now) }
    ensures { result
        ≡ pool_beside (longest controllers.now receivings.now pools.now) (owners_beside controllers.now receivings.now pools.now) h lowest }
{
    core_validity::pools::pool_valid(
        &OwnerSlices {
            controllers,
            receivings,
            pools,
        },
        h,
        lowest,
    )
}

// The errors of every place.
pub fn errors_places_valid(
    controller_count: usize,
    modes: &[u8],
    requests: &[u8],
    marks: &[bool],
    recoverings: &[bool],
    tx_errors: &[u32],
    rx_errors: &[u32],
) -> bool
    requires { longest recoverings.now tx_errors.now rx_errors.now ≡ longest modes.now requests.now marks.now }
    ensures { result
        ≡ tests.errors_places_valid (longest modes.now requests.now marks.now) controller_count
        (controllers_beside modes.now requests.now marks.now)
        (errors_beside recoverings.now tx_errors.now rx_errors.now) }
{
    core_validity::errors::errors_places_valid(
        controller_count,
        &ControllerSlices {
            modes,
            requests,
            marks,
        },
        &ErrorSlices {
            recoverings,
            tx_errors,
            rx_errors,
        },
    )
}
