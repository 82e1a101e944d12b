// Guards of the trusted definitions of demand 3 and of reading: a second telling and test data in specs/, laws and computed tables in proofs/.
#![tactic(auto)]
