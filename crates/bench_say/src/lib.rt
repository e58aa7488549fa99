// Texts with holes for numbers.
#![tactic(auto)]

pub mod form;
pub mod say;
