// meaning: what a plan gives over the tables' contents, and demand 3, as definitions (specs/) and theorems (proofs/). It has no code.
#![tactic(auto)]
