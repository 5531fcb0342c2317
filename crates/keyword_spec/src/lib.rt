// Keywords in the text of a record (02, T-07 and T-09). No code.
#![tactic(auto)]
