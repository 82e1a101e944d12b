// Guards of the trusted definitions of a library file: a second telling and test data in specs/, laws and computed tables in proofs/.
#![tactic(auto)]
