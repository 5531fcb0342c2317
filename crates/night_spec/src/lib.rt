// The types that the definition of the night's report and its code share (02, T-11).
#![tactic(auto)]

use terms::{Fault, Refusal};

// What the report says of a file that was read: N, how many points are missing, the lowest and the highest ordinate, their sum, which is at most 2^47 in magnitude, and the faintest.
#[derive(Clone, Copy, Debug, PartialEq, Eq)]
pub struct Account {
    pub points: u64,
    pub missing: u64,
    pub lowest: Option<i64>,
    pub highest: Option<i64>,
    pub sum: i64,
    pub faintest: Option<i64>,
}

// The totals over accepted files. The sum is below 2^57 in magnitude.
#[derive(Clone, Copy, Debug, PartialEq, Eq)]
pub struct Totals {
    pub files: u64,
    pub points: u64,
    pub missing: u64,
    pub sum: i64,
}

// The last lines of the report.
#[derive(Clone, Copy, Debug, PartialEq, Eq)]
pub struct Night {
    pub totals: Totals,
    pub end: Result<(), Fault>,
}

// How far a walk has come: the place, how many files stood before it, refused ones too, and the totals over the accepted ones among them.
#[derive(Clone, Copy, Debug, PartialEq, Eq)]
pub struct Progress {
    pub at: usize,
    pub seen: usize,
    pub totals: Totals,
}

// What a step of the walk answers: the report of a file, and how far the walk has come then; or how the spool ends, with the totals; or that no walk comes as far as that.
#[derive(Clone, Copy, Debug, PartialEq, Eq)]
pub enum Reported {
    File {
        report: Result<Account, Refusal>,
        then: Progress,
    },
    Over(Totals),
    Refused {
        why: Fault,
        totals: Totals,
    },
    Strange,
}
