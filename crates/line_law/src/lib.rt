// No code: the law of a whole line, what it does to the state of reading and that reading goes on from there: specs/WholeLine and proofs/WholeLine.
#![tactic(auto)]
