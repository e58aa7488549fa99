// From a command of a script to the call that it asks for.
#![tactic(auto)]

pub mod request;
