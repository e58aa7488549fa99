// The claim about any list of calls, with no code: specs/Claim.antt states it, proofs/ proves it.
#![tactic(auto)]
