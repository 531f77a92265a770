// cpl: the plan language of document 01, as definitions (specs/) and theorems (proofs/). It has no code.
#![tactic(auto)]
