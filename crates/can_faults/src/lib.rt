// Why a configuration is bad: the first rule that its bytes break, by which object's record and beside which other, and by which bit of a code.
#![tactic(auto)]

pub mod fault;
pub mod find;
pub mod outline;
pub mod pools;
pub mod record;
pub mod records;
pub mod stray;
