// No code: a body without tabs reads as it did with them (02, T-13).
#![tactic(auto)]
