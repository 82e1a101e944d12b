// Conversion keeps order (document 02, request 10): the statement in specs/, its proof in proofs/. No code.
#![tactic(auto)]
