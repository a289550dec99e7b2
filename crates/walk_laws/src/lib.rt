// Laws only: what the functions that visit are put together of.
#![tactic(auto)]
