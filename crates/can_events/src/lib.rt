// The events of the driver that carry no frame: the gate with this chip's validity, then the core's event on the state's core.
#![tactic(auto)]

pub mod bus_off_detected;
pub mod errors_counted;
pub mod tx_complete;
