// Standard input, line by line.
#![tactic(auto)]

pub mod reader;
pub mod scan;
