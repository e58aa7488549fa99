// The core of the driver's state: whose each hardware object is, and what waits where.
ghost use Rattle.std.specs.Prelude.{◌≡◌};
ghost use Rattle.core_places.specs.Names.{no_names};
ghost use Rattle.core_places.specs.Sized.{Sized};
ghost use Rattle.core_places.specs.View.{view_core, limits_of};
ghost use Rattle.rules.specs.Core as rules;

use crate::controller::Controller;
use crate::controllers::Controllers;
use crate::error_places::ErrorPlaces;
use crate::errors::Errors;
use crate::mailbox::Mailbox;
use crate::mailboxes::Mailboxes;
use crate::owner::Owner;
use crate::owners::Owners;
use crate::places::CorePlaces;
use crate::set_places::{SetControllers, SetErrors, SetMailboxes};
use std::marker::Model;

// A place for each of C controllers and of O hardware objects.
#[derive(Clone, Copy)]
pub struct Core<const C: usize, const O: usize> {
    pub initialised: bool,
    // So many are in use.
    pub controller_count: usize,
    pub object_count: usize,
    pub controllers: Controllers<C>,
    pub errors: ErrorPlaces<C>,
    pub owners: Owners<O>,
    pub mailboxes: Mailboxes<O>,
}

// The model forgets nothing, so that one core can go into two calls.
impl<const C: usize, const O: usize> Model for Core<C, O> {
    ghost use Rattle.rules.specs.Core as rules;

    ghost Value = { rules.Core };

    ghost use Rattle.core_places.specs.Seen.{core_seen};

    ghost view = { core_seen };

    ghost inverse = { λ c. record {
      initialised = c.initialised;
      controller_count = c.controller_count;
      object_count = c.object_count;
      controllers = c.controllers;
      errors = c.errors;
      owners = c.owners;
      mailboxes = c.mailboxes;
    } };
}

impl<const C: usize, const O: usize> Core<C, O> {
    // The core before Init: nothing in use, everything at rest.
    pub fn initial() -> Self
        ensures { view_core result ≡ rules.initial_core (limits_of C O) }
    {
        Core {
            initialised: false,
            controller_count: 0,
            object_count: 0,
            controllers: Controllers::idle(),
            errors: ErrorPlaces::none(),
            owners: Owners::unused(),
            mailboxes: Mailboxes::empty(),
        }
    }

    // How many places there are, for controllers and for objects. Each list is as long as its type says, which its own `len` tells.
    pub fn places(&self) -> (usize, usize)
        ensures numbers { (result.0 ≡ C) × (result.1 ≡ O) }
        ensures sized { Sized C O (view_core self.now) }
    {
        let _ = self.errors.len();
        let _ = self.mailboxes.len();
        (self.controllers.len(), self.owners.len())
    }
}

impl<const C: usize, const O: usize> CorePlaces for Core<C, O> {
    ghost core = { λ c. view_core c };

    ghost controllers = { λ _. C };

    ghost error_places = { λ _. C };

    ghost objects = { λ _. O };

    ghost readable_controllers = { λ _. C };

    ghost readable_objects = { λ _. O };

    ghost memory = { λ _. no_names };

    fn initialised(&self) -> bool {
        self.initialised
    }

    fn controller_count(&self) -> usize {
        self.controller_count
    }

    fn object_count(&self) -> usize {
        self.object_count
    }

    fn controller_places(&self) -> usize {
        self.controllers.len()
    }

    fn controller(&self, c: usize) -> Controller {
        self.controllers.at(c)
    }

    fn error_place(&self, c: usize) -> Errors {
        self.errors.at(c)
    }

    fn owner(&self, h: usize) -> Owner {
        self.owners.at(h)
    }

    fn mailbox(&self, h: usize) -> Mailbox {
        self.mailboxes.at(h)
    }

    fn read_controller(&self, c: usize) -> Controller {
        self.controllers.read(c)
    }

    fn read_errors(&self, c: usize) -> Errors {
        self.errors.read(c)
    }

    fn read_owner(&self, h: usize) -> Owner {
        self.owners.read(h)
    }

    fn read_mailbox(&self, h: usize) -> Mailbox {
        self.mailboxes.read(h)
    }
}

impl<const C: usize, const O: usize> SetControllers for Core<C, O> {
    fn set_controller(&mut self, c: usize, k: Controller) {
        self.controllers.set(c, k);
    }
}

impl<const C: usize, const O: usize> SetErrors for Core<C, O> {
    fn set_errors(&mut self, c: usize, e: Errors) {
        self.errors.set(c, e);
    }
}

impl<const C: usize, const O: usize> SetMailboxes for Core<C, O> {
    fn set_mailbox(&mut self, h: usize, m: Mailbox) {
        self.mailboxes.set(h, m);
    }

    fn free_mailbox(&mut self, h: usize) {
        self.mailboxes.free(h);
    }
}
