// The other texts of the plain style, each with a contract: which text is put, with which numbers.
#![tactic(auto)]

pub mod configs;
pub mod faults;
pub mod frames;
pub mod lines;
pub mod notices;
pub mod pools;
pub mod reports;
pub mod states;
pub mod totals;
pub mod troubles;
