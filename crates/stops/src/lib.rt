// Theorems: the stops of the Rust are absent after refusals 1 to 6; no code.
#![tactic(auto)]
