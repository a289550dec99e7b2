// Theorems over the rules; no code.
#![tactic(auto)]
