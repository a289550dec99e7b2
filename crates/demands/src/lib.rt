// Theorems about what the check answers; no code.
#![tactic(auto)]
