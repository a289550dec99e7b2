// Theorems over one run of the rules; no code.
#![tactic(auto)]
