// The bytes of an object that hold a classic or an FD frame: how they are laid down, and what is read of them.
#![tactic(auto)]

pub mod object;
pub mod read;
