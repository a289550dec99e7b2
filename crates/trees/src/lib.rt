// Theorems over the nodes and types of an accepted image as trees; no code.
#![tactic(auto)]
