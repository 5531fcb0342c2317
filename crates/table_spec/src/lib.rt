// What the body of a table says (Reading), and the text that is written (Writing). How ordinates are spelled stands in table_law, beside the theorems about it.
// Read them in the order of specs/Lib.antt.
#![tactic(auto)]

// The published form that a whole text is written in (01, "The written text"; 02, T-02), in the order of their numbers for C. (`Values.Form` is the form of one value.)
#[derive(Clone, Copy, Debug, PartialEq, Eq)]
pub enum Style {
    Difdup,
    Affn,
    Pac,
    Sqz,
}
