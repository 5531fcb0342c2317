// No code: a file whose body has no tabs reads as it did with them (02, T-13).
#![tactic(auto)]
