// The objects alone, as a core of which nothing is in use: the owners are read, from any list, and the mailboxes are set, in a struct of arrays.
ghost use Rattle.std.specs.Prelude.{◌≡◌, ◌<◌, ◌^◌, ℕ, List, false, set, []};
ghost use Rattle.rules.specs.Core as state;
ghost use Rattle.core_places.specs.View.{view_mailbox};

use crate::controller::{Controller, idle_controller};
use crate::errors::{Errors, no_errors};
use crate::lists::OwnerList;
use crate::mailbox::Mailbox;
use crate::mailboxes::Mailboxes;
use crate::owner::{Owner, unused_owner};
use crate::places::CorePlaces;
use crate::set_places::SetMailboxes;

// Mailboxes that are set.
pub trait MailboxPlaces {
    ghost places: { Self → List state.Mailbox };

    ghost size: { Self → ℕ };

    fn mailbox_at(&self, h: usize) -> Mailbox
        ensures { view_mailbox result ≡ state.mailbox_at (places self.now) h };

    fn put(&mut self, h: usize, m: Mailbox)
        requires { h < size self.old }
        ensures places { places self.new ≡ set (places self.old) h (view_mailbox m) }
        ensures size { size self.new ≡ size self.old };
}

impl<const N: usize> MailboxPlaces for Mailboxes<N> {
    ghost places = { λ l. l };

    ghost size = { λ _. N };

    fn mailbox_at(&self, h: usize) -> Mailbox {
        self.at(h)
    }

    fn put(&mut self, h: usize, m: Mailbox) {
        self.set(h, m);
    }
}

#[derive(Drop)]
pub struct ObjectPair<'a, W: OwnerList, M: MailboxPlaces> {
    pub owners: &'a W,
    pub mailboxes: &'a mut M,
}

impl<'a, W: OwnerList, M: MailboxPlaces> CorePlaces for ObjectPair<'a, W, M> {
    ghost core = { λ l. record {
      initialised = false;
      controller_count = 0;
      object_count = 0;
      owners = W.places l.owners.now;
      controllers = [];
      mailboxes = M.places l.mailboxes.now;
      errors = [];
    } };

    ghost controllers = { λ _. 0 };

    ghost error_places = { λ _. 0 };

    ghost objects = { λ l. M.size l.mailboxes.now };

    ghost readable_controllers = { λ _. 2 ^ 64 };

    ghost readable_objects = { λ _. 2 ^ 64 };

    ghost memory = { λ l. record {
      modes = 0;
      requests = 0;
      marks = 0;
      recoverings = 0;
      tx_errors = 0;
      rx_errors = 0;
      pendings = l.mailboxes.ghost_name;
      dones = 0;
      fulls = 0;
    } };

    fn initialised(&self) -> bool {
        false
    }

    fn controller_count(&self) -> usize {
        0
    }

    fn object_count(&self) -> usize {
        0
    }

    fn controller_places(&self) -> usize {
        0
    }

    fn controller(&self, _c: usize) -> Controller {
        idle_controller()
    }

    fn error_place(&self, _c: usize) -> Errors {
        no_errors()
    }

    fn owner(&self, h: usize) -> Owner {
        if h < self.owners.len() {
            self.owners.read(h)
        } else {
            unused_owner()
        }
    }

    fn mailbox(&self, h: usize) -> Mailbox {
        self.mailboxes.mailbox_at(h)
    }
}

impl<'a, W: OwnerList, M: MailboxPlaces> SetMailboxes for ObjectPair<'a, W, M> {
    fn set_mailbox(&mut self, h: usize, m: Mailbox) {
        self.mailboxes.put(h, m);
    }
}
