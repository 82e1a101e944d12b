// Reading a structure to a cell sheet (document 02, request 8): definitions in specs/, laws in proofs/. There is no code yet.
#![tactic(auto)]
