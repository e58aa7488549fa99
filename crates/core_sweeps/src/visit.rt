// What a poll does at one object: when the object is due, and the notification that tells of it then.
ghost use Rattle.std.specs.Prelude.{◌≡◌, List, ℕ, ◌+◌, ◌*◌, ◌^◌, ◌≤◌, ◌<◌, length, Bool};
ghost use Rattle.rules.specs.Core.{Owner, owner_at};
ghost use Rattle.rules.specs.Polls.{closing_notification};
ghost use Rattle.core_layout.specs.Head.{head_size};
ghost use Rattle.core_layout.specs.Sheet.{view};
ghost use Rattle.core_places.specs.View.{view_mailbox};
ghost use Rattle.core_sweeps.specs.Visits.{visit_of};

use core_layout::head::{handle_at, identifier_at, length_at};
use core_layout::notification::Notification;
use core_places::mailbox::Mailbox;

// Which objects a poll visits: the write poll those whose frame was sent, the read poll those that received one, and a poll that takes a
// controller off the bus its occupied ones.
#[derive(Clone, Copy)]
pub enum Visit {
    Sent,
    Received,
    Occupied { controller: usize },
}

// Whether an object of this controller is due. Most objects are free, so that is asked first.
pub fn visit_due(visit: Visit, owner: u8, m: Mailbox) -> bool
    ensures { (size : ℕ) (two : Bool) (owners : List Owner) (ram : List ℕ) (h : ℕ) → (owner_at owners h).controller ≡ owner
        → result ≡ (visit_of visit size two owners ram).due h (view_mailbox m) }
{
    match visit {
        Visit::Sent => m.tx_done,
        Visit::Received => m.rx_full,
        Visit::Occupied { controller } => m.tx_pending & (owner as usize == controller),
    }
}

// The closing notice of an occupied object goes by its mailbox alone: a frame that was sent is confirmed, any other is cancelled.
fn closing_note(m: Mailbox, object: u32, handle: u32) -> Notification
    ensures { view result ≡ closing_notification (view_mailbox m) object handle }
{
    if m.tx_done {
        Notification::TxConfirmation {
            object: object,
            handle: handle,
        }
    } else {
        Notification::TxCancellation {
            object: object,
            handle: handle,
        }
    }
}

// The notification that tells of an object: its handle, identifier and length are read from the memory.
pub fn visit_note(
    visit: Visit,
    m: Mailbox,
    object: usize,
    size: usize,
    two_bytes: bool,
    ram: &[u8],
) -> Notification
    requires { (object < 2 ^ 32) × (head_size ≤ size) × (size * object + size ≤ length ram.now) }
    ensures { (owners : List Owner) → view result ≡ (visit_of visit size two_bytes owners ram.now).note object (view_mailbox m) }
{
    let number = object as u32;
    match visit {
        Visit::Sent => closing_note(m, number, handle_at(ram, size, object)),
        Visit::Received => Notification::RxIndication {
            object: number,
            identifier: identifier_at(ram, size, object),
            length: length_at(ram, size, two_bytes, object),
        },
        Visit::Occupied { controller: _ } => {
            closing_note(m, number, handle_at(ram, size, object))
        }
    }
}
