// No code: a damaged line is caught (02, T-12).
#![tactic(auto)]
