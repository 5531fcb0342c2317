// The types that the definition of the written file and its code share (02, T-04).
#![tactic(auto)]

use file_spec::Exactness;

// A decimal as the caller gives it: a whole mantissa, and the exponent of ten.
#[derive(Clone, Copy, Debug, PartialEq, Eq)]
pub struct GivenDecimal {
    pub mantissa: i64,
    pub exponent: i64,
}

// The five decimals of a file.
#[derive(Clone, Copy, Debug, PartialEq, Eq)]
pub struct Scales {
    pub xfactor: GivenDecimal,
    pub yfactor: GivenDecimal,
    pub firstx: GivenDecimal,
    pub lastx: GivenDecimal,
    pub firsty: GivenDecimal,
}

// The length of a written file, and what of it is exact, as its reader finds it (02, T-08).
#[derive(Clone, Copy, Debug, PartialEq, Eq)]
pub struct FileLength {
    pub length: usize,
    pub exact: Exactness,
}
