// When the places of a core are valid.
ghost use Rattle.std.specs.Prelude.{◌≡◌, List};
ghost use Rattle.rules.specs.Errors.{Errors};
ghost use Rattle.core_places.specs.View.{view_core, limits_of};
ghost use Rattle.core_validity.specs.Tests as tests;

use crate::controllers::{controllers_idle, controllers_valid};
use crate::counts::counts_suit;
use crate::objects::{objects_unused, objects_valid};
use crate::waiting::waiting_started;
use core_places::core_state::Core;
use core_places::lists::{ControllerList, MailboxList, OwnerList};

// Whether the core is one that the driver can be in, where there are as many places as it has, but for its errors and its pools. Those are tested
// beside it, the pools together with what a format's members share.
pub fn places_valid<const C: usize, const O: usize>(core: &Core<C, O>) -> bool
    ensures { result ≡ tests.places_valid (limits_of C O) (view_core core.now) }
{
    lists_valid(
        core.initialised,
        core.controller_count,
        core.object_count,
        &core.controllers,
        &core.owners,
        &core.mailboxes,
    )
}

// The same of places of each kind, wherever they stand.
pub fn lists_valid<K: ControllerList, W: OwnerList, M: MailboxList>(
    initialised: bool,
    controller_count: usize,
    object_count: usize,
    controllers: &K,
    owners: &W,
    mailboxes: &M,
) -> bool
    requires { M.size mailboxes.now ≡ W.size owners.now }
    ensures { (errors : List Errors)
        → result
        ≡ tests.places_valid (limits_of (K.size controllers.now) (W.size owners.now))
        (record { initialised = initialised; controller_count = controller_count; object_count = object_count; owners = W.places owners.now; controllers = K.places controllers.now; mailboxes = M.places mailboxes.now; errors = errors }) }
{
    let controller_places = controllers.len();
    let object_places = owners.len();
    let _ = mailboxes.len();
    let counts = counts_suit(
        controller_places,
        object_places,
        initialised,
        controller_count,
        object_count,
    );
    if !counts {
        return false;
    }
    let idle = controllers_idle(controllers, controller_count);
    let unused = objects_unused(owners, mailboxes, object_count);
    if !initialised {
        return idle & unused;
    }
    let valid = controllers_valid(controllers, controller_count);
    let objects = objects_valid(controller_count, owners, mailboxes, object_count);
    let waiting = waiting_started(
        controller_count,
        controllers,
        owners,
        mailboxes,
        object_count,
    );
    valid & (objects & waiting) & (idle & unused)
}
