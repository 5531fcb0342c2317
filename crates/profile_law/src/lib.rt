// Laws of the ion mobility profile (02, T-09). No code.
#![tactic(auto)]
