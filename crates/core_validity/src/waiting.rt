// Frames wait only for STARTED controllers. Asked of each controller and not of each object: the objects of one controller are then found
// by comparing bytes, many at once, and a STARTED controller costs nothing.
ghost use Rattle.std.specs.Prelude.{◌≡◌, ◌≤◌, min};
ghost use Rattle.core_validity.specs.Tests as tests;

use core_places::controller::STARTED;
use core_places::lists::{ControllerList, MailboxList, OwnerList};
use core_places::range::limited;

// No frame waits in an object of controller c.
#[tactic(auto, using(crate::proofs::Laws::all_below_more), unfolding(rules::specs::Repeat::all_below))]
fn none_waits<W: OwnerList, M: MailboxList>(owners: &W, mailboxes: &M, count: usize, c: u8) -> bool
    requires { (count ≤ W.size owners.now) × (count ≤ M.size mailboxes.now) }
    ensures { result ≡ tests.none_waits (W.places owners.now) (M.places mailboxes.now) count c }
{
    let mut ok = true;
    for h in 0..count {
        let o = owners.read(h);
        let m = mailboxes.read(h);
        ok = ok & (!m.tx_pending | (o.controller != c));
    }
    ok
}

// Controller c is STARTED, or no frame waits for it.
fn started_or_none<W: OwnerList, M: MailboxList>(
    owners: &W,
    mailboxes: &M,
    count: usize,
    mode: u8,
    c: u8,
) -> bool
    requires { (count ≤ W.size owners.now) × (count ≤ M.size mailboxes.now) }
    ensures { result ≡ tests.started_or_none (W.places owners.now) (M.places mailboxes.now) count mode c }
{
    if mode == STARTED {
        true
    } else {
        none_waits(owners, mailboxes, count, c)
    }
}

// So it is of every controller in use; one past the 256th owns nothing, since an owner is a byte.
#[tactic(auto, using(crate::proofs::Laws::all_below_more), unfolding(rules::specs::Repeat::all_below))]
pub fn waiting_started<K: ControllerList, W: OwnerList, M: MailboxList>(
    controller_count: usize,
    controllers: &K,
    owners: &W,
    mailboxes: &M,
    count: usize,
) -> bool
    requires { (controller_count ≤ K.size controllers.now) × (count ≤ W.size owners.now) × (count ≤ M.size mailboxes.now) }
    ensures { result
        ≡ tests.waiting_started (min controller_count 256) (K.places controllers.now) (W.places owners.now)
        (M.places mailboxes.now) count }
{
    let end = limited(controller_count, 256);
    let mut ok = true;
    for c in 0..end {
        let k = controllers.read(c);
        ok = ok & started_or_none(owners, mailboxes, count, k.mode, c as u8);
    }
    ok
}
