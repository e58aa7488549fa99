// The services of the driver but Write: the gate with this chip's validity and sizes, then the core's service over the state's core.
// Init and DeInit replace the whole state.
#![tactic(auto)]

mod configured;
pub mod deinit;
pub mod init;
pub mod questions;
mod refusal;
pub mod set_controller_mode;
