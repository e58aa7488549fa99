// The controllers and their errors alone, as a core of which nothing is in use: the controllers are read, from any list, and the errors are set, in a
// struct of arrays.
ghost use Rattle.std.specs.Prelude.{◌≡◌, ◌<◌, ◌^◌, ℕ, List, false, set, []};
ghost use Rattle.rules.specs.Core as state;
ghost use Rattle.rules.specs.Errors as errors;
ghost use Rattle.core_places.specs.View.{view_errors};

use crate::controller::{Controller, idle_controller};
use crate::error_places::ErrorPlaces;
use crate::errors::{Errors, no_errors};
use crate::lists::ControllerList;
use crate::mailbox::{Mailbox, empty_mailbox};
use crate::owner::{Owner, unused_owner};
use crate::places::CorePlaces;
use crate::set_places::SetErrors;

// Errors that are set.
pub trait ErrorPlacesSet {
    ghost places: { Self → List errors.Errors };

    ghost size: { Self → ℕ };

    fn errors_at(&self, c: usize) -> Errors
        ensures { view_errors result ≡ state.errors_at (places self.now) c };

    fn put(&mut self, c: usize, e: Errors)
        requires { c < size self.old }
        ensures places { places self.new ≡ set (places self.old) c (view_errors e) }
        ensures size { size self.new ≡ size self.old };
}

impl<const N: usize> ErrorPlacesSet for ErrorPlaces<N> {
    ghost places = { λ l. l };

    ghost size = { λ _. N };

    fn errors_at(&self, c: usize) -> Errors {
        self.at(c)
    }

    fn put(&mut self, c: usize, e: Errors) {
        self.set(c, e);
    }
}

#[derive(Drop)]
pub struct ControllerPair<'a, W: ControllerList, M: ErrorPlacesSet> {
    pub controllers: &'a W,
    pub errors: &'a mut M,
}

impl<'a, W: ControllerList, M: ErrorPlacesSet> CorePlaces for ControllerPair<'a, W, M> {
    ghost core = { λ l. record {
      initialised = false;
      controller_count = 0;
      object_count = 0;
      owners = [];
      controllers = W.places l.controllers.now;
      mailboxes = [];
      errors = M.places l.errors.now;
    } };

    ghost controllers = { λ _. 0 };

    ghost error_places = { λ l. M.size l.errors.now };

    ghost objects = { λ _. 0 };

    ghost readable_controllers = { λ _. 2 ^ 64 };

    ghost readable_objects = { λ _. 2 ^ 64 };

    ghost memory = { λ l. record {
      modes = 0;
      requests = 0;
      marks = 0;
      recoverings = l.errors.ghost_name;
      tx_errors = 0;
      rx_errors = 0;
      pendings = 0;
      dones = 0;
      fulls = 0;
    } };

    fn initialised(&self) -> bool {
        false
    }

    fn controller_count(&self) -> usize {
        0
    }

    fn object_count(&self) -> usize {
        0
    }

    fn controller_places(&self) -> usize {
        self.controllers.len()
    }

    fn controller(&self, c: usize) -> Controller {
        if c < self.controllers.len() {
            self.controllers.read(c)
        } else {
            idle_controller()
        }
    }

    fn error_place(&self, c: usize) -> Errors {
        self.errors.errors_at(c)
    }

    fn owner(&self, _h: usize) -> Owner {
        unused_owner()
    }

    fn mailbox(&self, _h: usize) -> Mailbox {
        empty_mailbox()
    }
}

impl<'a, W: ControllerList, M: ErrorPlacesSet> SetErrors for ControllerPair<'a, W, M> {
    fn set_errors(&mut self, c: usize, e: Errors) {
        self.errors.put(c, e);
    }
}
