// The types that the definition of what a file says and its code share (01, "The file").
#![tactic(auto)]

use label_spec::Span;

// The texts of the seven records that a table needs.
#[derive(Clone, Copy, Debug, PartialEq, Eq)]
pub struct Needed {
    pub xfactor: Span,
    pub yfactor: Span,
    pub firstx: Span,
    pub lastx: Span,
    pub npoints: Span,
    pub firsty: Span,
    pub xydata: Span,
}

// A decimal: a mantissa below 10^9 with its sign, and its power of ten, counted from -200 on.
#[derive(Clone, Copy, Debug, PartialEq, Eq)]
pub struct Decimal {
    pub minus: bool,
    pub mantissa: u64,
    pub power: u64,
}

// The numbers of the six records before the table.
#[derive(Clone, Copy, Debug, PartialEq, Eq)]
pub struct Numbers {
    pub xfactor: Decimal,
    pub yfactor: Decimal,
    pub firstx: Decimal,
    pub lastx: Decimal,
    pub npoints: u64,
    pub firsty: Decimal,
}

// Whether the quotients of a file are exact, nothing being rounded (02, T-08): F's, L's, and FIRSTY's, which is exact too where it is not compared.
#[derive(Clone, Copy, Debug, PartialEq, Eq)]
pub struct Exactness {
    pub first: bool,
    pub last: bool,
    pub firsty: bool,
}

// What a file's table has: how many points, its first and last abscissa in whole thousandths, and what of it is exact.
#[derive(Clone, Copy, Debug, PartialEq, Eq)]
pub struct FileTable {
    pub points: usize,
    pub first: i64,
    pub last: i64,
    pub exact: Exactness,
}
