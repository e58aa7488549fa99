// The script of a night: one command a line. A line of any bytes is read as the command that it says, or as the trouble with it.
#![tactic(auto)]

pub mod command;
mod count;
pub mod name;
pub mod object;
