// What a controller remembers of errors on the bus, and the error state that follows from it.
ghost use Rattle.std.specs.Prelude.{◌≡◌};
ghost use Rattle.rules.specs.Errors as rules;
ghost use Rattle.rules.specs.Core as state;
ghost use Rattle.core_places.specs.View as view;

use crate::controller::{Controller, STARTED};

// The largest count that there is.
pub const ERROR_LIMIT: u32 = 65535;

// A controller is error passive where either count is above this,
pub const PASSIVE_ABOVE: u32 = 127;

// and bus-off where the transmit count is above this.
pub const BUS_OFF_ABOVE: u32 = 255;

// The error states.
pub const ACTIVE: u8 = 0;

pub const PASSIVE: u8 = 1;

pub const BUS_OFF: u8 = 2;

// The second mark, which a bus-off poll leaves and STARTED clears, and the two counts.
#[derive(Clone, Copy, PartialEq, Eq)]
pub struct Errors {
    pub recovering: bool,
    pub tx_errors: u32,
    pub rx_errors: u32,
}

// A place at rest.
pub fn no_errors() -> Errors
    ensures { view.view_errors result ≡ rules.no_errors }
{
    Errors {
        recovering: false,
        tx_errors: 0,
        rx_errors: 0,
    }
}

// Whether both counts are numbers that can be kept.
pub fn within_limit(tx: u32, rx: u32) -> bool
    ensures { result ≡ rules.within_limit tx rx }
{
    (tx <= ERROR_LIMIT) & (rx <= ERROR_LIMIT)
}

// Whether the transmit count alone makes a controller bus-off.
pub fn above_bus_off(tx: u32) -> bool
    ensures { result ≡ rules.above_bus_off tx }
{
    BUS_OFF_ABOVE < tx
}

// A count as it is told: at most 255.
pub fn capped(n: u32) -> u8
    ensures { result ≡ rules.capped n }
{
    if n < 255 { n as u8 } else { 255 }
}

// The error state by the two counts, and whether the controller is off the bus by one of its two marks.
pub fn error_state_of(off: bool, tx: u32, rx: u32) -> u8
    ensures { result ≡ rules.error_state_of off tx rx }
{
    let passive = (PASSIVE_ABOVE < tx) | (PASSIVE_ABOVE < rx);
    if off | above_bus_off(tx) {
        return BUS_OFF;
    }
    if passive {
        return PASSIVE;
    }
    ACTIVE
}

// The error state of a controller.
pub fn error_state(k: Controller, e: Errors) -> u8
    ensures { result ≡ state.error_state (view.view_controller k) (view.view_errors e) }
{
    error_state_of(k.bus_off | e.recovering, e.tx_errors, e.rx_errors)
}

// The errors of a controller in use: its counts are within the limit, a transmit count of bus-off stands only with one of the two marks, and the
// second mark never on a STARTED controller.
pub fn errors_valid(k: Controller, e: Errors) -> bool
    ensures { result ≡ state.errors_valid (view.view_controller k) (view.view_errors e) }
{
    let within = within_limit(e.tx_errors, e.rx_errors);
    let above = above_bus_off(e.tx_errors);
    within & (!above | (k.bus_off | e.recovering)) & (!e.recovering | !(k.mode == STARTED))
}

// Whether a place is at rest.
pub fn errors_none(e: Errors) -> bool
    ensures { result ≡ rules.errors_none (view.view_errors e) }
{
    !e.recovering & (e.tx_errors == 0) & (e.rx_errors == 0)
}
