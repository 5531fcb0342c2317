// The types that the definition of what a compound file says and its code share (02, T-07).
#![tactic(auto)]

use label_spec::Span;

// A block of a file: the places of TITLE's `##` and `=`, and of END's `##` and `=`.
#[derive(Clone, Copy, Debug, PartialEq, Eq)]
pub struct Block {
    pub title: usize,
    pub eq: usize,
    pub end: usize,
    pub last: usize,
}

// What a block's own labels have said: whether it is LINK, whether it has a table, and the text of its BLOCKS.
#[derive(Clone, Copy, Debug, PartialEq, Eq)]
pub struct Own {
    pub link: bool,
    pub table: bool,
    pub blocks: Option<Span>,
}

// What the survey of a file's blocks tells: the outermost block, what its own labels said, and how many data blocks there are.
#[derive(Clone, Copy, Debug, PartialEq, Eq)]
pub struct Surveyed {
    pub outermost: Block,
    pub own: Own,
    pub count: usize,
}

// The data blocks of a file: it is one itself; or so many stand in the compound file.
#[derive(Clone, Copy, Debug, PartialEq, Eq)]
pub enum Blocks {
    One,
    Compound(usize),
}
