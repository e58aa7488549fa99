// A configuration that is said in words, as the bytes that Init takes.
#![tactic(auto)]

pub mod draft;
