// Guards of the trusted definitions of flags and plex numbers: test data in specs/, laws and computed tables in proofs/.
#![tactic(auto)]
