// A core whose places stand in slices of the caller, as many as there are at run time.
ghost use Rattle.std.specs.Prelude.{◌≡◌, ◌^◌, length};
ghost use Rattle.core_places.specs.Arrays.{controllers_in, errors_in, mailboxes_in};
ghost use Rattle.core_places.specs.Beside.{owners_beside};

use crate::at::{controller_at, errors_at, mailbox_at, owner_at};
use crate::controller::Controller;
use crate::errors::Errors;
use crate::mailbox::Mailbox;
use crate::owner::Owner;
use crate::places::CorePlaces;
use crate::set_places::{SetControllers, SetErrors, SetMailboxes};

// Lent to be set. Each kind of place has arrays that are alike in length, `&mut []` where a call reads nothing of the kind; the arrays of the owners may be of any
// lengths.
#[derive(Drop)]
pub struct LentCore<'a> {
    pub initialised: bool,
    pub controller_count: usize,
    pub object_count: usize,
    pub modes: &'a mut [u8],
    pub requests: &'a mut [u8],
    pub marks: &'a mut [bool],
    pub recoverings: &'a mut [bool],
    pub tx_errors: &'a mut [u32],
    pub rx_errors: &'a mut [u32],
    pub controllers: &'a [u8],
    pub receivings: &'a [bool],
    pub pools: &'a [u8],
    pub pendings: &'a mut [bool],
    pub dones: &'a mut [bool],
    pub fulls: &'a mut [bool],
    pub ghost requests_are: { length requests.now ≡ length modes.now },
    pub ghost marks_are: { length marks.now ≡ length modes.now },
    pub ghost tx_are: { length tx_errors.now ≡ length recoverings.now },
    pub ghost rx_are: { length rx_errors.now ≡ length recoverings.now },
    pub ghost dones_are: { length dones.now ≡ length pendings.now },
    pub ghost fulls_are: { length fulls.now ≡ length pendings.now },
}

impl<'a> CorePlaces for LentCore<'a> {
    ghost core = { λ l. record {
      initialised = l.initialised;
      controller_count = l.controller_count;
      object_count = l.object_count;
      owners = owners_beside l.controllers.now l.receivings.now l.pools.now;
      controllers = controllers_in l.modes.now l.requests.now l.marks.now;
      mailboxes = mailboxes_in l.pendings.now l.dones.now l.fulls.now;
      errors = errors_in l.recoverings.now l.tx_errors.now l.rx_errors.now;
    } };

    ghost controllers = { λ l. length l.modes.now };

    ghost error_places = { λ l. length l.recoverings.now };

    ghost objects = { λ l. length l.pendings.now };

    ghost readable_controllers = { λ _. 2 ^ 64 };

    ghost readable_objects = { λ _. 2 ^ 64 };

    ghost memory = { λ l. record {
      modes = l.modes.ghost_name;
      requests = l.requests.ghost_name;
      marks = l.marks.ghost_name;
      recoverings = l.recoverings.ghost_name;
      tx_errors = l.tx_errors.ghost_name;
      rx_errors = l.rx_errors.ghost_name;
      pendings = l.pendings.ghost_name;
      dones = l.dones.ghost_name;
      fulls = l.fulls.ghost_name;
    } };

    fn initialised(&self) -> bool {
        self.initialised
    }

    fn controller_count(&self) -> usize {
        self.controller_count
    }

    fn object_count(&self) -> usize {
        self.object_count
    }

    #[tactic(auto, using(crate::specs::Zip::zip_3_length))]
    fn controller_places(&self) -> usize {
        self.modes.len()
    }

    #[tactic(auto, using(crate::specs::Columns::controller_seen))]
    fn controller(&self, c: usize) -> Controller {
        controller_at(self.modes, self.requests, self.marks, c)
    }

    #[tactic(auto, using(crate::specs::Columns::errors_seen))]
    fn error_place(&self, c: usize) -> Errors {
        errors_at(self.recoverings, self.tx_errors, self.rx_errors, c)
    }

    #[tactic(auto, using(crate::proofs::Beside::owner_beside))]
    fn owner(&self, h: usize) -> Owner {
        owner_at(self.controllers, self.receivings, self.pools, h)
    }

    #[tactic(auto, using(crate::specs::Columns::mailbox_seen))]
    fn mailbox(&self, h: usize) -> Mailbox {
        mailbox_at(self.pendings, self.dones, self.fulls, h)
    }
}

impl<'a> SetControllers for LentCore<'a> {
    #[tactic(auto, using(crate::specs::Zip::zip_3_set))]
    fn set_controller(&mut self, c: usize, k: Controller) {
        self.modes[c] = k.mode;
        self.requests[c] = k.requested_mode;
        self.marks[c] = k.bus_off;
    }
}

impl<'a> SetErrors for LentCore<'a> {
    #[tactic(auto, using(crate::specs::Zip::zip_3_set))]
    fn set_errors(&mut self, c: usize, e: Errors) {
        self.recoverings[c] = e.recovering;
        self.tx_errors[c] = e.tx_errors;
        self.rx_errors[c] = e.rx_errors;
    }
}

impl<'a> SetMailboxes for LentCore<'a> {
    #[tactic(auto, using(crate::specs::Zip::zip_3_set))]
    fn set_mailbox(&mut self, h: usize, m: Mailbox) {
        self.pendings[h] = m.tx_pending;
        self.dones[h] = m.tx_done;
        self.fulls[h] = m.rx_full;
    }
}
