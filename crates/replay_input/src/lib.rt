// The input of `replay`: numbers, ordinates and bytes, and what stands before each case (second/README.md, "The stored cases").
#![tactic(auto)]

use file_write_spec::{GivenDecimal, Scales};
use standard_input::read_full;
use std::io::Read;

// What stands before each case: F, L and N, the room that is lent, and how many bytes or ordinates follow.
#[derive(Clone, Copy)]
pub struct Asked {
    pub first: i64,
    pub last: i64,
    pub points: usize,
    pub room: usize,
    pub count: usize,
}

// The next bytes of the input; zeros past its end.
fn next_bytes<const N: usize, R: Read>(input: &mut R) -> [u8; N] {
    let mut b = [0u8; N];
    read_full(input, &mut b);
    b
}

// The next number of the input, in eight bytes, the highest first; 0 at its end.
pub fn next_number<R: Read>(input: &mut R) -> u64 {
    u64::from_be_bytes(next_bytes(input))
}

// The next abscissa of the input: any number of 64 bits, in two's complement.
fn next_abscissa<R: Read>(input: &mut R) -> i64 {
    i64::from_be_bytes(next_bytes(input))
}

// The next ordinate of the input, in four bytes: its distance from the mark of a missing one.
fn next_ordinate<R: Read>(input: &mut R) -> i32 {
    signed::entry_for(u64::from(u32::from_be_bytes(next_bytes(input))))
}

// The next n ordinates of the input.
pub fn take_ordinates<R: Read>(input: &mut R, ys: &mut [i32], n: usize) {
    for y in ys.iter_mut().take(n) {
        *y = next_ordinate(input);
    }
}

// What stands before the next case.
pub fn next_asked<R: Read>(input: &mut R) -> Asked {
    Asked {
        first: next_abscissa(input),
        last: next_abscissa(input),
        points: next_number(input) as usize,
        room: next_number(input) as usize,
        count: next_number(input) as usize,
    }
}

// The next n bytes of the input, if there is room for them.
pub fn take_bytes<R: Read>(input: &mut R, bytes: &mut [u8], n: usize) {
    if let Some(b) = bytes.get_mut(..n) {
        read_full(input, b);
    }
}

// The next decimal of the input: a mantissa and an exponent.
fn next_decimal<R: Read>(input: &mut R) -> GivenDecimal {
    GivenDecimal {
        mantissa: next_abscissa(input),
        exponent: next_abscissa(input),
    }
}

// The next five decimals of the input, in the order of the records.
pub fn next_scales<R: Read>(input: &mut R) -> Scales {
    Scales {
        xfactor: next_decimal(input),
        yfactor: next_decimal(input),
        firstx: next_decimal(input),
        lastx: next_decimal(input),
        firsty: next_decimal(input),
    }
}
