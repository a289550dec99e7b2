// Theorems: the rules of one and two operands, put together of visits; no code.
#![tactic(auto)]
