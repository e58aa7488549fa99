// A core whose mailboxes are lent to be set, in slices of the caller, and the other places to be read.
ghost use Rattle.std.specs.Prelude.{◌≡◌, ◌^◌, length};
ghost use Rattle.core_places.specs.Arrays.{mailboxes_in};
ghost use Rattle.core_places.specs.Beside.{controllers_beside, errors_beside, owners_beside};

use crate::at::{controller_at, errors_at, mailbox_at, owner_at};
use crate::controller::Controller;
use crate::errors::Errors;
use crate::mailbox::Mailbox;
use crate::owner::Owner;
use crate::places::CorePlaces;
use crate::range::larger;
use crate::set_places::SetMailboxes;

// The arrays of the mailboxes are alike in length; the others may be of any lengths, `&[]` for a field that a call does not read.
#[derive(Drop)]
pub struct LentMailboxes<'a> {
    pub initialised: bool,
    pub controller_count: usize,
    pub object_count: usize,
    pub modes: &'a [u8],
    pub requests: &'a [u8],
    pub marks: &'a [bool],
    pub recoverings: &'a [bool],
    pub tx_errors: &'a [u32],
    pub rx_errors: &'a [u32],
    pub controllers: &'a [u8],
    pub receivings: &'a [bool],
    pub pools: &'a [u8],
    pub pendings: &'a mut [bool],
    pub dones: &'a mut [bool],
    pub fulls: &'a mut [bool],
    pub ghost dones_are: { length dones.now ≡ length pendings.now },
    pub ghost fulls_are: { length fulls.now ≡ length pendings.now },
}

impl<'a> CorePlaces for LentMailboxes<'a> {
    ghost core = { λ l. record {
      initialised = l.initialised;
      controller_count = l.controller_count;
      object_count = l.object_count;
      owners = owners_beside l.controllers.now l.receivings.now l.pools.now;
      controllers = controllers_beside l.modes.now l.requests.now l.marks.now;
      mailboxes = mailboxes_in l.pendings.now l.dones.now l.fulls.now;
      errors = errors_beside l.recoverings.now l.tx_errors.now l.rx_errors.now;
    } };

    ghost controllers = { λ _. 0 };

    ghost error_places = { λ _. 0 };

    ghost objects = { λ l. length l.pendings.now };

    ghost readable_controllers = { λ _. 2 ^ 64 };

    ghost readable_objects = { λ _. 2 ^ 64 };

    ghost memory = { λ l. record {
      modes = 0;
      requests = 0;
      marks = 0;
      recoverings = 0;
      tx_errors = 0;
      rx_errors = 0;
      pendings = l.pendings.ghost_name;
      dones = l.dones.ghost_name;
      fulls = l.fulls.ghost_name;
    } };

    fn initialised(&self) -> bool {
        self.initialised
    }

    fn controller_count(&self) -> usize {
        self.controller_count
    }

    fn object_count(&self) -> usize {
        self.object_count
    }

    #[tactic(auto, using(crate::proofs::Beside::beside_length))]
    fn controller_places(&self) -> usize {
        larger(
            self.modes.len(),
            larger(self.requests.len(), self.marks.len()),
        )
    }

    #[tactic(auto, using(crate::proofs::Beside::controller_beside))]
    fn controller(&self, c: usize) -> Controller {
        controller_at(self.modes, self.requests, self.marks, c)
    }

    #[tactic(auto, using(crate::proofs::Beside::error_beside))]
    fn error_place(&self, c: usize) -> Errors {
        errors_at(self.recoverings, self.tx_errors, self.rx_errors, c)
    }

    #[tactic(auto, using(crate::proofs::Beside::owner_beside))]
    fn owner(&self, h: usize) -> Owner {
        owner_at(self.controllers, self.receivings, self.pools, h)
    }

    #[tactic(auto, using(crate::specs::Columns::mailbox_seen))]
    fn mailbox(&self, h: usize) -> Mailbox {
        mailbox_at(self.pendings, self.dones, self.fulls, h)
    }
}

impl<'a> SetMailboxes for LentMailboxes<'a> {
    #[tactic(auto, using(crate::specs::Zip::zip_3_set))]
    fn set_mailbox(&mut self, h: usize, m: Mailbox) {
        self.pendings[h] = m.tx_pending;
        self.dones[h] = m.tx_done;
        self.fulls[h] = m.rx_full;
    }
}
