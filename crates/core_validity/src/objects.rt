// All hardware objects: their owners and their mailboxes.
ghost use Rattle.std.specs.Prelude.{◌≡◌, ℕ, ◌≤◌, ◌<◌};
ghost use Rattle.rules.specs.Core.{owner_at};
ghost use Rattle.core_validity.specs.Tests as tests;

use core_places::lists::{MailboxList, OwnerList};
use core_places::mailbox::{mailbox_empty, mailbox_valid};
use core_places::owner::owner_unused;
use core_places::range::limited;

// Each object in use names a controller in use, and its mailbox is valid as far as the object shows it: whether its controller is STARTED
// is asked of the controllers. Owners are compared as bytes, so that many are compared at once.
#[tactic(auto, using(crate::proofs::Laws::all_below_more), unfolding(rules::specs::Repeat::all_below))]
pub fn objects_valid<W: OwnerList, M: MailboxList>(
    controller_count: usize,
    owners: &W,
    mailboxes: &M,
    count: usize,
) -> bool
    requires { (count ≤ W.size owners.now) × (count ≤ M.size mailboxes.now) × (1 ≤ controller_count) }
    ensures valid { result ≡ tests.objects_valid controller_count (W.places owners.now) (M.places mailboxes.now) count }
    ensures bytes { (h : ℕ) → h < count → (owner_at (W.places owners.now) h).controller < 256 }
{
    let last = limited(controller_count - 1, 255) as u8;
    let mut ok = true;
    for h in 0..count {
        let o = owners.read(h);
        let consistent = mailbox_valid(o.receiving, true, mailboxes.read(h));
        ok = ok & ((o.controller <= last) & consistent);
    }
    ok
}

// Each object that is not in use is at rest.
#[tactic(auto, using(crate::proofs::Laws::from_none, crate::proofs::Laws::from_more))]
pub fn objects_unused<W: OwnerList, M: MailboxList>(owners: &W, mailboxes: &M, count: usize) -> bool
    requires { (count ≤ W.size owners.now) × (M.size mailboxes.now ≡ W.size owners.now) }
    ensures { result ≡ tests.objects_unused (W.places owners.now) (M.places mailboxes.now) count }
{
    let mut ok = true;
    for h in count..owners.len() {
        let unused = owner_unused(owners.read(h));
        let empty = mailbox_empty(mailboxes.read(h));
        ok = ok & (unused & empty);
    }
    ok
}
