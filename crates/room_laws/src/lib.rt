// Theorems: the words of scratch and of the functions buffer that the walk takes; no code.
#![tactic(auto)]
