// No code: theorems about the written file (02, T-04), in specs/.
#![tactic(auto)]
