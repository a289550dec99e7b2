// The bench's rows are well formed UTF-8; no code.
#![tactic(auto)]
