// Laws of reading an image: no code.
#![tactic(auto)]
