// No code: how much room a text needs (02, T-10), in the terms of the contracts of `text_length` and of the writer.
#![tactic(auto)]
