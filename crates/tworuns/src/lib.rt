// Theorems over two runs of the rules; no code.
#![tactic(auto)]
