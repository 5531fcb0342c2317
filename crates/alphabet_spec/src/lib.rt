// No code: what a byte of a table is (01, "Values"), and what a run of digits says.
#![tactic(auto)]
