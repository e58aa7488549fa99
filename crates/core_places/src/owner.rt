// Whose a hardware object is, its kind, and the pool of one that sends.
ghost use Rattle.std.specs.Prelude.{◌≡◌};
ghost use Rattle.rules.specs.Core as rules;
ghost use Rattle.core_places.specs.View as view;

#[derive(Clone, Copy, PartialEq, Eq)]
pub struct Owner {
    pub controller: u8,
    pub receiving: bool,
    pub pool: u8,
}

// A place at rest.
pub fn unused_owner() -> Owner
    ensures { view.view_owner result ≡ rules.unused_owner }
{
    Owner {
        controller: 0,
        receiving: false,
        pool: 0,
    }
}

// An object in use names a controller in use.
pub fn owner_valid(controller_count: usize, o: Owner) -> bool
    ensures { result ≡ rules.owner_valid controller_count (view.view_owner o) }
{
    (o.controller as usize) < controller_count
}

// Whether a place is at rest.
pub fn owner_unused(o: Owner) -> bool
    ensures { result ≡ rules.owner_unused (view.view_owner o) }
{
    (o.controller == 0) & !o.receiving & (o.pool == 0)
}
