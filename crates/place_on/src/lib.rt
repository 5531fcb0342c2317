// No code: nothing goes on from the place of a refusal.
#![tactic(auto)]
