// Demand 3 as theorems: what orders change, that they commute where they may, and what holds after any list of them. No code.
#![tactic(auto)]
