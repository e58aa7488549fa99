// 01's Arrived: which object takes the frame, what becomes of it, and the call on the driver state.
#![tactic(auto)]

pub mod choice;
pub mod frame_arrived;
pub mod judge;
pub mod lent;
pub mod received;
