// No code: what reading a profile promises, beside the plain reader and the page (02, T-09).
#![tactic(auto)]
