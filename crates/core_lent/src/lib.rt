// The core's calls on arrays of a caller, one for each field, alike in length where a kind of place is set, as many as there are at run time. Nothing goes through these functions:
// they show that a caller who has such arrays, and of some kinds none, can make each call, and what it then says of the arrays.
#![tactic(auto)]

pub mod events;
pub mod pairs;
pub mod polls;
pub mod services;
pub mod validity;
