// The places of the objects' mailboxes.
ghost use Rattle.std.specs.Prelude.{◌≡◌, ◌<◌, length, replicate, set};
ghost use Rattle.rules.specs.Core as rules;
ghost use Rattle.core_places.specs.View.{view_mailbox};

use crate::mailbox::{Mailbox, empty_mailbox};
use std::marker::Model;

// The mailboxes of N objects. Clauses see the list of them.
#[derive(Clone, Copy)]
pub struct Mailboxes<const N: usize> {
    pendings: [bool; N],
    dones: [bool; N],
    fulls: [bool; N],
}

impl<const N: usize> Model for Mailboxes<N> {
    ghost use Rattle.std.specs.Prelude.{List, map};
    ghost use Rattle.rules.specs.Core.{Mailbox};
    ghost use Rattle.core_places.specs.Arrays.{Alike, mailboxes_in};
    ghost use Rattle.core_places.specs.Columns.{pending_back, done_back, full_back};

    ghost Value = { List Mailbox };

    ghost view = { λ a. mailboxes_in a.pendings a.dones a.fulls };

    ghost invariant = { λ a. Alike a.pendings a.dones a.fulls };

    ghost inverse = { λ ms. record { pendings = map (λ m. m.tx_pending) ms; dones = map (λ m. m.tx_done) ms; fulls = map (λ m. m.rx_full) ms } };

    ghost inverse_ok = { λ a alike i. record {
      pendings = pending_back a.pendings a.dones a.fulls alike i;
      dones = done_back a.pendings a.dones a.fulls alike i;
      fulls = full_back a.pendings a.dones a.fulls alike i;
    } };
}

impl<const N: usize> Mailboxes<N> {
    // All at rest.
    #[tactic(auto, using(crate::specs::Zip::zip_3_replicate))]
    pub fn empty() -> Self
        ensures { result ≡ replicate N rules.empty_mailbox }
    {
        Mailboxes {
            pendings: [false; N],
            dones: [false; N],
            fulls: [false; N],
        }
    }

    // How many there are.
    #[tactic(auto, using(crate::specs::Zip::zip_3_length))]
    pub fn len(&self) -> usize
        ensures number { result ≡ N }
        ensures places { length self.now ≡ N }
    {
        let pendings = &self.pendings;
        pendings.len()
    }

    // The mailbox of object h, which there is.
    #[tactic(auto, using(crate::specs::Columns::mailbox_seen))]
    pub fn read(&self, h: usize) -> Mailbox
        requires { h < N }
        ensures { view_mailbox result ≡ rules.mailbox_at self.now h }
    {
        Mailbox {
            tx_pending: self.pendings[h],
            tx_done: self.dones[h],
            rx_full: self.fulls[h],
        }
    }

    // The mailbox of object h; past the last one, an empty one.
    pub fn at(&self, h: usize) -> Mailbox
        ensures { view_mailbox result ≡ rules.mailbox_at self.now h }
    {
        if h < self.len() {
            self.read(h)
        } else {
            empty_mailbox()
        }
    }

    // The mailbox of object h becomes m.
    #[tactic(auto, using(crate::specs::Zip::zip_3_set))]
    pub fn set(&mut self, h: usize, m: Mailbox)
        requires { h < N }
        ensures { self.new ≡ set self.old h (view_mailbox m) }
    {
        self.pendings[h] = m.tx_pending;
        self.dones[h] = m.tx_done;
        self.fulls[h] = m.rx_full;
    }

    // The mailbox of object h becomes empty.
    pub fn free(&mut self, h: usize)
        requires { h < N }
        ensures { self.new ≡ set self.old h rules.empty_mailbox }
    {
        self.set(h, empty_mailbox());
    }
}
