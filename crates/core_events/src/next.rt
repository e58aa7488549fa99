// Who sends next on a controller: the part that looks at no frame. The choice among those that compete is `pick`'s.
ghost use Rattle.std.specs.Prelude.{◌≡◌, ◌&&◌, eqb};
ghost use Rattle.rules.specs.Events.{has_unsent};
ghost use Rattle.core_places.specs.View.{view_mailbox};
ghost use Rattle.core_events.specs.Pick.{view_pick};
ghost use Rattle.core_events.specs.Next.{Told};

use crate::pick::Picked;
use core_answers::reply::NextReply;
use core_places::mailbox::Mailbox;

// Whether an object competes on a controller: it is that controller's, and a frame waits in it that is not gone.
pub fn competes(owner: u8, controller: usize, m: Mailbox) -> bool
    ensures { result ≡ (eqb owner controller && has_unsent (view_mailbox m)) }
{
    (owner as usize == controller) & (m.tx_pending & !m.tx_done)
}

// The object picked, or that nobody waits.
pub fn told(best: Option<Picked>) -> NextReply
    ensures { Told (view_pick best) result }
{
    match best {
        Some(best) => Ok(Some(best.number)),
        None => Ok(None),
    }
}
