// A core whose controllers' errors are lent to be set, in slices of the caller, and the other places to be read.
ghost use Rattle.std.specs.Prelude.{◌≡◌, ◌^◌, length};
ghost use Rattle.core_places.specs.Arrays.{errors_in};
ghost use Rattle.core_places.specs.Beside.{controllers_beside, owners_beside, mailboxes_beside};

use crate::at::{controller_at, errors_at, mailbox_at, owner_at};
use crate::controller::Controller;
use crate::errors::Errors;
use crate::mailbox::Mailbox;
use crate::owner::Owner;
use crate::places::CorePlaces;
use crate::range::larger;
use crate::set_places::SetErrors;

// The arrays of the errors are alike in length; the others may be of any lengths, `&[]` for a field that a call does not read.
#[derive(Drop)]
pub struct LentErrors<'a> {
    pub initialised: bool,
    pub controller_count: usize,
    pub object_count: usize,
    pub modes: &'a [u8],
    pub requests: &'a [u8],
    pub marks: &'a [bool],
    pub recoverings: &'a mut [bool],
    pub tx_errors: &'a mut [u32],
    pub rx_errors: &'a mut [u32],
    pub controllers: &'a [u8],
    pub receivings: &'a [bool],
    pub pools: &'a [u8],
    pub pendings: &'a [bool],
    pub dones: &'a [bool],
    pub fulls: &'a [bool],
    pub ghost tx_are: { length tx_errors.now ≡ length recoverings.now },
    pub ghost rx_are: { length rx_errors.now ≡ length recoverings.now },
}

impl<'a> CorePlaces for LentErrors<'a> {
    ghost core = { λ l. record {
      initialised = l.initialised;
      controller_count = l.controller_count;
      object_count = l.object_count;
      owners = owners_beside l.controllers.now l.receivings.now l.pools.now;
      controllers = controllers_beside l.modes.now l.requests.now l.marks.now;
      mailboxes = mailboxes_beside l.pendings.now l.dones.now l.fulls.now;
      errors = errors_in l.recoverings.now l.tx_errors.now l.rx_errors.now;
    } };

    ghost controllers = { λ _. 0 };

    ghost error_places = { λ l. length l.recoverings.now };

    ghost objects = { λ _. 0 };

    ghost readable_controllers = { λ _. 2 ^ 64 };

    ghost readable_objects = { λ _. 2 ^ 64 };

    ghost memory = { λ l. record {
      modes = 0;
      requests = 0;
      marks = 0;
      recoverings = l.recoverings.ghost_name;
      tx_errors = l.tx_errors.ghost_name;
      rx_errors = l.rx_errors.ghost_name;
      pendings = 0;
      dones = 0;
      fulls = 0;
    } };

    fn initialised(&self) -> bool {
        self.initialised
    }

    fn controller_count(&self) -> usize {
        self.controller_count
    }

    fn object_count(&self) -> usize {
        self.object_count
    }

    #[tactic(auto, using(crate::proofs::Beside::beside_length))]
    fn controller_places(&self) -> usize {
        larger(
            self.modes.len(),
            larger(self.requests.len(), self.marks.len()),
        )
    }

    #[tactic(auto, using(crate::proofs::Beside::controller_beside))]
    fn controller(&self, c: usize) -> Controller {
        controller_at(self.modes, self.requests, self.marks, c)
    }

    #[tactic(auto, using(crate::specs::Columns::errors_seen))]
    fn error_place(&self, c: usize) -> Errors {
        errors_at(self.recoverings, self.tx_errors, self.rx_errors, c)
    }

    #[tactic(auto, using(crate::proofs::Beside::owner_beside))]
    fn owner(&self, h: usize) -> Owner {
        owner_at(self.controllers, self.receivings, self.pools, h)
    }

    #[tactic(auto, using(crate::proofs::Beside::mailbox_beside))]
    fn mailbox(&self, h: usize) -> Mailbox {
        mailbox_at(self.pendings, self.dones, self.fulls, h)
    }
}

impl<'a> SetErrors for LentErrors<'a> {
    #[tactic(auto, using(crate::specs::Zip::zip_3_set))]
    fn set_errors(&mut self, c: usize, e: Errors) {
        self.recoverings[c] = e.recovering;
        self.tx_errors[c] = e.tx_errors;
        self.rx_errors[c] = e.rx_errors;
    }
}
