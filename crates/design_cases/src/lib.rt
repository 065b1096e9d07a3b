// The boards of document 01 as files: laws alone, no code.
#![tactic(auto)]
