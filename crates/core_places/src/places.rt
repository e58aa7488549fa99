// The places of a core, wherever they stand: in a struct of arrays, or in slices of a caller, of any lengths.
ghost use Rattle.std.specs.Prelude.{◌≡◌, ◌<◌, ◌≤◌, ℕ, length, max};
ghost use Rattle.rules.specs.Core as rules;
ghost use Rattle.core_places.specs.View.{view_controller, view_errors, view_owner, view_mailbox};
ghost use Rattle.core_places.specs.Names.{Names};

use crate::controller::Controller;
use crate::errors::Errors;
use crate::mailbox::Mailbox;
use crate::owner::Owner;

pub trait CorePlaces {
    // The core as the rules see it.
    ghost core: { Self → rules.Core };

    // So many controllers, controllers' errors and mailboxes may be set.
    ghost controllers: { Self → ℕ };

    ghost error_places: { Self → ℕ };

    ghost objects: { Self → ℕ };

    // Beside those, controllers and objects below these numbers can be read with no test.
    ghost readable_controllers: { Self → ℕ };

    ghost readable_objects: { Self → ℕ };

    // The references that are lent.
    ghost memory: { Self → Names };

    // What is in use.
    fn initialised(&self) -> bool
        ensures { result ≡ (core self.now).initialised };

    fn controller_count(&self) -> usize
        ensures { result ≡ (core self.now).controller_count };

    fn object_count(&self) -> usize
        ensures { result ≡ (core self.now).object_count };

    // How many controllers there are.
    fn controller_places(&self) -> usize
        ensures number { result ≡ length (core self.now).controllers }
        ensures readable { result ≤ readable_controllers self.now };

    // What stands at any number.
    fn controller(&self, c: usize) -> Controller
        ensures { view_controller result ≡ rules.controller_at (core self.now).controllers c };

    fn error_place(&self, c: usize) -> Errors
        ensures { view_errors result ≡ rules.errors_at (core self.now).errors c };

    fn owner(&self, h: usize) -> Owner
        ensures { view_owner result ≡ rules.owner_at (core self.now).owners h };

    fn mailbox(&self, h: usize) -> Mailbox
        ensures { view_mailbox result ≡ rules.mailbox_at (core self.now).mailboxes h };

    // What stands at a number that may be set or read with no test. A core whose type says how many places there are need not test it again.
    fn read_controller(&self, c: usize) -> Controller
        requires { c < max (controllers self.now) (max (error_places self.now) (readable_controllers self.now)) }
        ensures { view_controller result ≡ rules.controller_at (core self.now).controllers c }
    {
        self.controller(c)
    }

    fn read_errors(&self, c: usize) -> Errors
        requires { c < max (error_places self.now) (readable_controllers self.now) }
        ensures { view_errors result ≡ rules.errors_at (core self.now).errors c }
    {
        self.error_place(c)
    }

    fn read_owner(&self, h: usize) -> Owner
        requires { h < max (objects self.now) (readable_objects self.now) }
        ensures { view_owner result ≡ rules.owner_at (core self.now).owners h }
    {
        self.owner(h)
    }

    fn read_mailbox(&self, h: usize) -> Mailbox
        requires { h < max (objects self.now) (readable_objects self.now) }
        ensures { view_mailbox result ≡ rules.mailbox_at (core self.now).mailboxes h }
    {
        self.mailbox(h)
    }
}
