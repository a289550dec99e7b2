// Theorems: what stands up to and including the offending word decides the place of refusals 2 and 3; no code.
#![tactic(auto)]
