#![tactic(auto)]

pub mod put;
