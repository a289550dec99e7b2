// Theorems: what refusals 1 to 6 leave, and the demands; no code.
#![tactic(auto)]
