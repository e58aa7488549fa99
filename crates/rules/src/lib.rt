// The rules of the CAN driver bench as definitions, with no code: see specs/. What follows from them stands in crates/laws.
#![tactic(auto)]
