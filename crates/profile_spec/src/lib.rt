// The types that the definition of the ion mobility profile and its code share (02, T-09).
#![tactic(auto)]

use terms::Refusal;

// Where the text of a record stands: on the site's page or in the file, from one place up to another.
#[derive(Clone, Copy, Debug, PartialEq, Eq)]
pub struct Shown {
    pub page: bool,
    pub from: usize,
    pub to: usize,
}

// Why the fifteen records are refused: one is absent from both the page and the file (30); or a word is unlisted, the first one, where it stands (31).
#[derive(Clone, Copy, Debug, PartialEq, Eq)]
pub enum Unfit {
    Lacking,
    Unlisted { page: bool, place: usize },
}

// The refusal of a profile: its place, line and column are counted on the page or in the file.
#[derive(Clone, Copy, Debug, PartialEq, Eq)]
pub struct PageRefusal {
    pub page: bool,
    pub refusal: Refusal,
}
