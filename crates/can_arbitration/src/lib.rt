// 02's choice of who sends next on a controller: which object goes first, the choice over a lent core, and the call on the driver state.
#![tactic(auto)]

mod choice;
mod lent;
pub mod next;
