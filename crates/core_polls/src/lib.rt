// The four polls on the core: a sweep over the objects, or over the controllers, behind the gate.
#![tactic(auto)]

pub mod controllers;
pub mod errors;
pub mod poll;
pub mod turn;
