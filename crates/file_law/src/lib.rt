// Laws about files that are accepted: no code.
#![tactic(auto)]
