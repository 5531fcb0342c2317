// What the writers of the four forms share (01, "The written text"; 02, T-02): digits and line ends in the lent bytes.
#![tactic(auto)]

pub mod digits;
