// What a call answers: why it is refused, its return code, and the checks that every call begins with.
#![tactic(auto)]

pub mod gate;
pub mod question;
pub mod rejection;
pub mod reply;
pub mod reported;
pub mod verdict;
