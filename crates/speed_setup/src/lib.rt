// What the timed programs share: the configurations that rounds are made on, and how many rounds are asked for.
#![tactic(auto)]

pub mod chips;
pub mod rounds;
