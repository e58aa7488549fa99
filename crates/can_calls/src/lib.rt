// One call of the driver from a value: which function, and what it is asked. The bench and the hostile cases both make their calls so.
#![tactic(auto)]

pub mod answer;
pub mod perform;
pub mod request;
