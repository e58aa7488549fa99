// How many controllers and objects are in use.
ghost use Rattle.std.specs.Prelude.{◌≡◌};
ghost use Rattle.rules.specs.Core as rules;
ghost use Rattle.core_places.specs.View.{limits_of};
ghost use Rattle.core_validity.specs.Tests as tests;

// From 1 controller to all, and from no object to all, where there are so many places.
pub fn counts_valid(
    controllers: usize,
    objects: usize,
    controller_count: usize,
    object_count: usize,
) -> bool
    ensures { result ≡ rules.counts_valid (limits_of controllers objects) controller_count object_count }
{
    (1 <= controller_count) & (controller_count <= controllers) & (object_count <= objects)
}

// The counts of an initialised core are valid, and before initialisation nothing is in use.
pub fn counts_suit(
    controllers: usize,
    objects: usize,
    initialised: bool,
    controller_count: usize,
    object_count: usize,
) -> bool
    ensures { result ≡ tests.counts_suit (limits_of controllers objects) initialised controller_count object_count }
{
    if initialised {
        counts_valid(controllers, objects, controller_count, object_count)
    } else {
        (controller_count == 0) & (object_count == 0)
    }
}
