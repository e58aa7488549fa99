// The four polls of the driver: the gate with this chip's validity and sizes, then the core's poll over the state's core.
#![tactic(auto)]

pub mod controllers;
pub mod objects;
