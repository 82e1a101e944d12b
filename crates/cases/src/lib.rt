// Computed tests of the definitions: the data in specs/, the tests in proofs/.
#![tactic(auto)]
