// What follows from the rules, with no code: see proofs/.
#![tactic(auto)]
