// Definitions only.
#![tactic(auto)]
