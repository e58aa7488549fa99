// What a poll does at one controller: when its turn is due, whether it leaves the bus, what tells of it, and what it and its errors are
// afterwards.
ghost use Rattle.std.specs.Prelude.{◌≡◌};
ghost use Rattle.core_layout.specs.Sheet.{view};
ghost use Rattle.rules.specs.Polls as rules;
ghost use Rattle.core_places.specs.View.{view_controller, view_errors};
ghost use Rattle.core_polls.specs.Turns.{turn_of};

use core_layout::notification::Notification;
use core_places::controller::{Controller, NO_REQUEST, STARTED, STOPPED};
use core_places::errors::{Errors, no_errors};

// The mode poll carries out a waiting request, the bus-off poll stops a marked controller.
#[derive(Clone, Copy)]
pub enum Turn {
    ModeChange,
    GoingOff,
}

// Whether the controller's turn is due: a request waits and it is not marked off-bus; or it is marked.
pub fn turn_due(turn: Turn, k: Controller) -> bool
    ensures { result ≡ (turn_of turn).due (view_controller k) }
{
    match turn {
        Turn::ModeChange => !k.bus_off & (k.requested_mode != NO_REQUEST),
        Turn::GoingOff => k.bus_off,
    }
}

// Whether it leaves the bus, so that its objects are closed.
pub fn leaves_bus(turn: Turn, k: Controller) -> bool
    ensures { result ≡ (turn_of turn).leaves (view_controller k) }
{
    match turn {
        Turn::ModeChange => (k.mode == STARTED) & (k.requested_mode != STARTED),
        Turn::GoingOff => true,
    }
}

// The notification that tells of it.
pub fn turn_note(turn: Turn, controller: u32, k: Controller) -> Notification
    ensures { view result ≡ (turn_of turn).note controller (view_controller k) }
{
    match turn {
        Turn::ModeChange => Notification::ModeIndication {
            controller: controller,
            mode: k.requested_mode as u32,
        },
        Turn::GoingOff => Notification::BusOffIndication {
            controller: controller,
        },
    }
}

// What it is afterwards: in the mode requested, or STOPPED with neither mark nor request.
pub fn entered(turn: Turn, k: Controller) -> Controller
    ensures { view_controller result ≡ (turn_of turn).entered (view_controller k) }
{
    match turn {
        Turn::ModeChange => Controller {
            mode: k.requested_mode,
            requested_mode: NO_REQUEST,
            bus_off: k.bus_off,
        },
        Turn::GoingOff => Controller {
            mode: STOPPED,
            requested_mode: NO_REQUEST,
            bus_off: false,
        },
    }
}

// The errors of a controller that enters the mode requested: STARTED begins without any.
fn entering_errors(k: Controller, e: Errors) -> Errors
    ensures { view_errors result ≡ rules.entering_errors (view_controller k) (view_errors e) }
{
    if k.requested_mode == STARTED {
        no_errors()
    } else {
        e
    }
}

// The errors of a controller that goes off the bus: the second mark stands beside the counts.
fn bus_off_errors(k: Controller, e: Errors) -> Errors
    ensures { view_errors result ≡ rules.bus_off_errors (view_controller k) (view_errors e) }
{
    Errors {
        recovering: true,
        tx_errors: e.tx_errors,
        rx_errors: e.rx_errors,
    }
}

// What its errors are afterwards; k is the controller before its turn.
pub fn errors_after(turn: Turn, k: Controller, e: Errors) -> Errors
    ensures { view_errors result ≡ (turn_of turn).errors_after (view_controller k) (view_errors e) }
{
    match turn {
        Turn::ModeChange => entering_errors(k, e),
        Turn::GoingOff => bus_off_errors(k, e),
    }
}
