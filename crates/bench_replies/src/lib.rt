// A call and what came of it in plain words, each text with a contract: which text is put, with which numbers.
#![tactic(auto)]

pub mod answers;
pub mod calls;
pub mod refusals;
