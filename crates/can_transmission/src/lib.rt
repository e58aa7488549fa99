// The service Write: the core's part and the frame's part on a lent state, and the call on the driver state.
#![tactic(auto)]

pub mod judge;
pub mod lent;
pub mod write;
