// Which object an arriving frame goes to, or who sends next: the one with the best rank among those that fit, the lowest among equals. One
// object at a time; the crates that know the frames go over all of them.
ghost use Rattle.std.specs.Prelude.{◌≡◌};
ghost use Rattle.rules.specs.Events as rules;
ghost use Rattle.core_places.specs.View.{view_mailbox};
ghost use Rattle.core_events.specs.Pick.{outranks, better_pick};

use core_places::mailbox::Mailbox;

// The object picked so far, where there is one, and its rank.
#[derive(Clone, Copy)]
pub struct Picked {
    pub number: u32,
    pub rank: u32,
}

// Whether an object of this rank goes before the best so far: among equals the first one stays.
fn outranks(rank: u32, best: Option<Picked>) -> bool
    ensures { result ≡ outranks rank best }
{
    match best {
        None => true,
        Some(best) => best.rank < rank,
    }
}

// An object against the best so far: it must fit, and outrank the best.
pub fn better(best: Option<Picked>, number: u32, fits: bool, rank: u32) -> Option<Picked>
    ensures { result ≡ better_pick number fits rank best }
{
    let outranks = outranks(rank, best);
    if fits & outranks {
        Some(Picked { number, rank })
    } else {
        best
    }
}

// A mailbox in which a received frame waits.
pub fn filled_mailbox() -> Mailbox
    ensures { view_mailbox result ≡ rules.filled_mailbox }
{
    Mailbox {
        tx_pending: false,
        tx_done: false,
        rx_full: true,
    }
}
