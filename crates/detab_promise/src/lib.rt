// No code: what the converters promise, in the terms of the public readers (02, T-13).
#![tactic(auto)]
