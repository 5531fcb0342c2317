// No code: all before the place of a refusal can stay (01, "Refusal numbers").
#![tactic(auto)]
