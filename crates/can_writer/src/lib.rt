// The configuration writer: from a configuration to the bytes of a version that say it.
#![tactic(auto)]

mod header;
mod judge;
mod owners;
mod record;
mod records;
pub mod reply;
mod sayable;
pub mod state;
pub mod write;
