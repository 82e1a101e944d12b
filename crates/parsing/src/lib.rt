// Reading a list from its front: definitions in specs/, laws in proofs/.
#![tactic(auto)]
