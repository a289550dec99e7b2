// Theorems: what every visit of the walk asks for, and that it holds again after every step; no code.
#![tactic(auto)]
