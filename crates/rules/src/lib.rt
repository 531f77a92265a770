// rules: document 01's requests, rewriting rules and answers, as definitions (specs/) and theorems (proofs/). It has no code.
#![tactic(auto)]
