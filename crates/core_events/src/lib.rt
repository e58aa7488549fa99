// The events of the simulated controller on the core: a frame was sent, a bus-off was detected, errors were counted; and the part of an
// arrival, and of who sends next, that looks at no frame.
#![tactic(auto)]

pub mod bus_off_detected;
mod counted;
pub mod errors_counted;
pub mod next;
pub mod on_bus;
pub mod pick;
pub mod tx_complete;
