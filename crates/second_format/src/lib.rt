// A second kind of frame, with no code: its definitions are in specs/, the theorems in proofs/.
#![tactic(auto)]
