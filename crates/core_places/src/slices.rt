// Places of one kind that stand in slices of the caller, one for each field. The slices may be of any lengths: there are as many places as the longest
// has, and `&[]` is lent for a field that a call does not read.
ghost use Rattle.core_places.specs.Beside.{longest, controllers_beside, errors_beside, owners_beside, mailboxes_beside};

use crate::at::{controller_at, errors_at, mailbox_at, owner_at};
use crate::controller::Controller;
use crate::errors::Errors;
use crate::lists::{ControllerList, ErrorList, MailboxList, OwnerList};
use crate::mailbox::Mailbox;
use crate::owner::Owner;
use crate::range::larger;

#[derive(Clone, Copy, Drop)]
pub struct ControllerSlices<'a> {
    pub modes: &'a [u8],
    pub requests: &'a [u8],
    pub marks: &'a [bool],
}

impl<'a> ControllerList for ControllerSlices<'a> {
    ghost places = { λ l. controllers_beside l.modes.now l.requests.now l.marks.now };

    ghost size = { λ l. longest l.modes.now l.requests.now l.marks.now };

    #[tactic(auto, using(crate::proofs::Beside::beside_length))]
    fn len(&self) -> usize {
        larger(
            self.modes.len(),
            larger(self.requests.len(), self.marks.len()),
        )
    }

    #[tactic(auto, using(crate::proofs::Beside::controller_beside))]
    fn read(&self, c: usize) -> Controller {
        controller_at(self.modes, self.requests, self.marks, c)
    }
}

#[derive(Clone, Copy, Drop)]
pub struct ErrorSlices<'a> {
    pub recoverings: &'a [bool],
    pub tx_errors: &'a [u32],
    pub rx_errors: &'a [u32],
}

impl<'a> ErrorList for ErrorSlices<'a> {
    ghost places = { λ l. errors_beside l.recoverings.now l.tx_errors.now l.rx_errors.now };

    ghost size = { λ l. longest l.recoverings.now l.tx_errors.now l.rx_errors.now };

    #[tactic(auto, using(crate::proofs::Beside::beside_length))]
    fn len(&self) -> usize {
        larger(
            self.recoverings.len(),
            larger(self.tx_errors.len(), self.rx_errors.len()),
        )
    }

    #[tactic(auto, using(crate::proofs::Beside::error_beside))]
    fn read(&self, c: usize) -> Errors {
        errors_at(self.recoverings, self.tx_errors, self.rx_errors, c)
    }
}

#[derive(Clone, Copy, Drop)]
pub struct OwnerSlices<'a> {
    pub controllers: &'a [u8],
    pub receivings: &'a [bool],
    pub pools: &'a [u8],
}

impl<'a> OwnerList for OwnerSlices<'a> {
    ghost places = { λ l. owners_beside l.controllers.now l.receivings.now l.pools.now };

    ghost size = { λ l. longest l.controllers.now l.receivings.now l.pools.now };

    #[tactic(auto, using(crate::proofs::Beside::beside_length))]
    fn len(&self) -> usize {
        larger(
            self.controllers.len(),
            larger(self.receivings.len(), self.pools.len()),
        )
    }

    #[tactic(auto, using(crate::proofs::Beside::owner_beside))]
    fn read(&self, h: usize) -> Owner {
        owner_at(self.controllers, self.receivings, self.pools, h)
    }
}

#[derive(Clone, Copy, Drop)]
pub struct MailboxSlices<'a> {
    pub pendings: &'a [bool],
    pub dones: &'a [bool],
    pub fulls: &'a [bool],
}

impl<'a> MailboxList for MailboxSlices<'a> {
    ghost places = { λ l. mailboxes_beside l.pendings.now l.dones.now l.fulls.now };

    ghost size = { λ l. longest l.pendings.now l.dones.now l.fulls.now };

    #[tactic(auto, using(crate::proofs::Beside::beside_length))]
    fn len(&self) -> usize {
        larger(
            self.pendings.len(),
            larger(self.dones.len(), self.fulls.len()),
        )
    }

    #[tactic(auto, using(crate::proofs::Beside::mailbox_beside))]
    fn read(&self, h: usize) -> Mailbox {
        mailbox_at(self.pendings, self.dones, self.fulls, h)
    }
}
