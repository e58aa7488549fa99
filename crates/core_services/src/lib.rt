// The services on the core, and the part of them that looks at no frame: what a service asks of the places, what it changes there, and
// the development error of a refused one.
#![tactic(auto)]

pub mod ask_controller;
pub mod deinit;
pub mod in_use;
pub mod number;
pub mod pool;
pub mod report;
pub mod set_controller_mode;
pub mod write;
