// Facts on truth values, numbers and lists that the kit's library does not have; no code.
#![tactic(auto)]
