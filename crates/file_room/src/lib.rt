// No code: how much room a file needs (02, T-10), in the terms of the contracts of `file_length` and `write_file`.
#![tactic(auto)]
