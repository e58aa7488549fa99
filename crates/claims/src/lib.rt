// The theorems for this chip, with no code: see proofs/Chip.antt.
#![tactic(auto)]
