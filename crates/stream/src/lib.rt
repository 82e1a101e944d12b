// Records, what they draw, and reading them: definitions in specs/, laws in proofs/.
#![tactic(auto)]
