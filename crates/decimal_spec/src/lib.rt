// The types that the definitions and the code of the numbers of a file share (01, The file).
#![tactic(auto)]
// Digits with at most one point: the number that they make, how many of them stand behind the point, and the place after them.
#[derive(Clone, Copy, Debug, PartialEq, Eq)]
pub struct Mantissa {
    pub value: u64,
    pub behind: u64,
    pub end: usize,
}

// What may stand after the digits: the power of ten, counted from -200 on, and the place after it.
#[derive(Clone, Copy, Debug, PartialEq, Eq)]
pub struct Exponent {
    pub power: u64,
    pub end: usize,
}

// A number of a file: its mantissa with the sign beside it, its power of ten, counted from -200 on, and the place after it.
#[derive(Clone, Copy, Debug, PartialEq, Eq)]
pub struct Number {
    pub minus: bool,
    pub mantissa: u64,
    pub power: u64,
    pub end: usize,
}

// A number of digits only, and the place after it.
#[derive(Clone, Copy, Debug, PartialEq, Eq)]
pub struct Count {
    pub value: u64,
    pub end: usize,
}

// A rounded quotient, a whole number: its size with the sign beside it.
#[derive(Clone, Copy, Debug, PartialEq, Eq)]
pub struct Whole {
    pub minus: bool,
    pub size: u64,
}

// The answer of the division of two decimals: the rounded quotient, none where it lies beyond its limit, and whether it is exact, nothing being rounded (02, T-08).
#[derive(Clone, Copy, Debug, PartialEq, Eq)]
pub struct Quotient {
    pub rounded: Option<Whole>,
    pub exact: bool,
}
