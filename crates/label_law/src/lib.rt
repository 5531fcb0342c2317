// No code: what is proved of the definitions of label_spec.
#![tactic(auto)]
