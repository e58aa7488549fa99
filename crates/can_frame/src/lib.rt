// Classic and FD frames: identifiers, lengths, filters and what a configuration may say of them.
#![tactic(auto)]

pub mod filter;
pub mod identifier;
pub mod length;
pub mod settings;
mod table;
