// No code: the promise of reading a table, in terms of spellings alone.
#![tactic(auto)]
