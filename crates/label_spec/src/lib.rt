// What is found in a file. Definitions and code share these types (01, The file).
#![tactic(auto)]

// A label: the places of its `##`, of its name and of its `=`; or a `##` without `=`, or with a name too long.
#[derive(Clone, Copy, Debug, PartialEq, Eq)]
pub enum Label {
    At {
        mark: usize,
        start: usize,
        eq: usize,
    },
    Bad {
        mark: usize,
    },
    None,
}

// The edges of a label: the places of its `##` and of its `=`.
#[derive(Clone, Copy, Debug, PartialEq, Eq)]
pub struct Edges {
    pub mark: usize,
    pub eq: usize,
}

// What the labels of a file say: the places of TITLE's `##` and `=` and of END's `##`.
#[derive(Clone, Copy, Debug, PartialEq, Eq)]
pub struct Places {
    pub title: usize,
    pub eq: usize,
    pub end: usize,
}

// A part of a text, as that of a record: from one place up to another.
#[derive(Clone, Copy, Debug, PartialEq, Eq)]
pub struct Span {
    pub from: usize,
    pub to: usize,
}
