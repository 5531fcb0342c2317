// No code: a table is accepted exactly when it is spelled, and no table spells two lists. Read the theorems from the end: proofs/Outcome, then Sound and Complete.
#![tactic(auto)]
