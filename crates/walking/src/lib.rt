// Specs only: what the functions that visit ask for and say (typecheck).
#![tactic(auto)]
