// Guards of the trusted definitions of the limits of text types and properties: test data in specs/, laws and computed tables in proofs/.
#![tactic(auto)]
