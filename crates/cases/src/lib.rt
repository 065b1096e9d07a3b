// The twelve cases of document 01 as one table under one proved statement: definitions in specs/, laws in proofs/, and no code.
#![tactic(auto)]
