// No code: the plain reading of a table is its reading (02, T-14). Read the theorems: specs/Agree.
#![tactic(auto)]
