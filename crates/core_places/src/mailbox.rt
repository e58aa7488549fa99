// What changes of one hardware object.
ghost use Rattle.std.specs.Prelude.{◌≡◌};
ghost use Rattle.rules.specs.Core as state;
ghost use Rattle.core_places.specs.View as view;

// A written frame waits, it was sent, a received frame waits to be read.
#[derive(Clone, Copy, PartialEq, Eq)]
pub struct Mailbox {
    pub tx_pending: bool,
    pub tx_done: bool,
    pub rx_full: bool,
}

// A place at rest.
pub fn empty_mailbox() -> Mailbox
    ensures { view.view_mailbox result ≡ state.empty_mailbox }
{
    Mailbox {
        tx_pending: false,
        tx_done: false,
        rx_full: false,
    }
}

// A frame waits only in a sending object of a STARTED controller, is sent only where one waits, and only a receiving object is full.
pub fn mailbox_valid(receiving: bool, started: bool, m: Mailbox) -> bool
    ensures { result ≡ state.mailbox_valid receiving started (view.view_mailbox m) }
{
    (!m.tx_pending | (!receiving & started))
        & (!m.tx_done | m.tx_pending)
        & (!m.rx_full | receiving)
}

// Whether a place is at rest.
pub fn mailbox_empty(m: Mailbox) -> bool
    ensures { result ≡ state.mailbox_empty (view.view_mailbox m) }
{
    !m.tx_pending & !m.tx_done & !m.rx_full
}
