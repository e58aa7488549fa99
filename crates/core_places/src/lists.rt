// Places of one kind that a call reads, wherever they stand: in a struct of arrays, or in slices of the caller.
ghost use Rattle.std.specs.Prelude.{◌≡◌, ◌<◌, ℕ, List, length};
ghost use Rattle.rules.specs.Core as rules;
ghost use Rattle.rules.specs.Errors as errors;
ghost use Rattle.core_places.specs.View.{view_controller, view_errors, view_owner, view_mailbox};

use crate::controller::Controller;
use crate::controllers::Controllers;
use crate::error_places::ErrorPlaces;
use crate::errors::Errors;
use crate::mailbox::Mailbox;
use crate::mailboxes::Mailboxes;
use crate::owner::Owner;
use crate::owners::Owners;

// Controllers: the list of them, and how many there are.
pub trait ControllerList {
    ghost places: { Self → List rules.Controller };

    ghost size: { Self → ℕ };

    fn len(&self) -> usize
        ensures number { result ≡ size self.now }
        ensures places { length (places self.now) ≡ size self.now };

    fn read(&self, c: usize) -> Controller
        requires { c < size self.now }
        ensures { view_controller result ≡ rules.controller_at (places self.now) c };
}

// Errors of controllers: the list of them, and how many there are.
pub trait ErrorList {
    ghost places: { Self → List errors.Errors };

    ghost size: { Self → ℕ };

    fn len(&self) -> usize
        ensures number { result ≡ size self.now }
        ensures places { length (places self.now) ≡ size self.now };

    fn read(&self, c: usize) -> Errors
        requires { c < size self.now }
        ensures { view_errors result ≡ rules.errors_at (places self.now) c };
}

// Owners of objects: the list of them, and how many there are.
pub trait OwnerList {
    ghost places: { Self → List rules.Owner };

    ghost size: { Self → ℕ };

    fn len(&self) -> usize
        ensures number { result ≡ size self.now }
        ensures places { length (places self.now) ≡ size self.now };

    fn read(&self, h: usize) -> Owner
        requires { h < size self.now }
        ensures { view_owner result ≡ rules.owner_at (places self.now) h };
}

// Mailboxes: the list of them, and how many there are.
pub trait MailboxList {
    ghost places: { Self → List rules.Mailbox };

    ghost size: { Self → ℕ };

    fn len(&self) -> usize
        ensures number { result ≡ size self.now }
        ensures places { length (places self.now) ≡ size self.now };

    fn read(&self, h: usize) -> Mailbox
        requires { h < size self.now }
        ensures { view_mailbox result ≡ rules.mailbox_at (places self.now) h };
}

impl<const N: usize> ControllerList for Controllers<N> {
    ghost places = { λ l. l };

    ghost size = { λ _. N };

    fn len(&self) -> usize {
        self.len()
    }

    fn read(&self, c: usize) -> Controller {
        self.read(c)
    }
}

impl<const N: usize> ErrorList for ErrorPlaces<N> {
    ghost places = { λ l. l };

    ghost size = { λ _. N };

    fn len(&self) -> usize {
        self.len()
    }

    fn read(&self, c: usize) -> Errors {
        self.read(c)
    }
}

impl<const N: usize> OwnerList for Owners<N> {
    ghost places = { λ l. l };

    ghost size = { λ _. N };

    fn len(&self) -> usize {
        self.len()
    }

    fn read(&self, h: usize) -> Owner {
        self.read(h)
    }
}

impl<const N: usize> MailboxList for Mailboxes<N> {
    ghost places = { λ l. l };

    ghost size = { λ _. N };

    fn len(&self) -> usize {
        self.len()
    }

    fn read(&self, h: usize) -> Mailbox {
        self.read(h)
    }
}
