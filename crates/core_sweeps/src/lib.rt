// The sweep over the objects that polls make: one for the write poll, the read poll and a controller that leaves the bus.
#![tactic(auto)]

pub mod objects;
pub mod visit;
