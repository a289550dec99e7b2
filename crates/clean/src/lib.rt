// Two of the promises, proved of every input; no code.
#![tactic(auto)]
