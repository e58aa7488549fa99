// When a core is valid, tested on lent places, as many as there are.
#![tactic(auto)]

mod controllers;
pub mod counts;
pub mod errors;
mod objects;
pub mod pools;
pub mod validity;
mod waiting;
