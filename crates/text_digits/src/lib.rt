// The digits of values in full (02, T-02), counted by a number's bits and, where all their bytes are lent, stored two at a time. Inner functions.
#![tactic(auto)]

ghost use Rattle.std.specs.Prelude.{◌≡◌, ◌+◌, ◌/◌, ◌%◌, ◌≤◌, ◌<◌, eqb, length};
ghost use Rattle.terms.specs.Logic.{pick};
ghost use Rattle.table_text.specs.Digits.{further, Digits};
ghost use Rattle.table_text.specs.Pieces.{Put, number};
ghost use Rattle.text_digits.specs.Pairs.{pairs};
ghost use Rattle.text_digits.specs.Counts.{counts};
ghost use Rattle.text_digits.specs.Lent.{Storable};

use table_text::digits::DIGIT;

// The numbers 0 to 99 in two digits each. A constant table is copied at each use, so it is copied once and lent.
pub const PAIRS: [u8; 200] = [
    48, 48, 48, 49, 48, 50, 48, 51, 48, 52, 48, 53, 48, 54, 48, 55, 48, 56, 48, 57, 49, 48, 49, 49,
    49, 50, 49, 51, 49, 52, 49, 53, 49, 54, 49, 55, 49, 56, 49, 57, 50, 48, 50, 49, 50, 50, 50, 51,
    50, 52, 50, 53, 50, 54, 50, 55, 50, 56, 50, 57, 51, 48, 51, 49, 51, 50, 51, 51, 51, 52, 51, 53,
    51, 54, 51, 55, 51, 56, 51, 57, 52, 48, 52, 49, 52, 50, 52, 51, 52, 52, 52, 53, 52, 54, 52, 55,
    52, 56, 52, 57, 53, 48, 53, 49, 53, 50, 53, 51, 53, 52, 53, 53, 53, 54, 53, 55, 53, 56, 53, 57,
    54, 48, 54, 49, 54, 50, 54, 51, 54, 52, 54, 53, 54, 54, 54, 55, 54, 56, 54, 57, 55, 48, 55, 49,
    55, 50, 55, 51, 55, 52, 55, 53, 55, 54, 55, 55, 55, 56, 55, 57, 56, 48, 56, 49, 56, 50, 56, 51,
    56, 52, 56, 53, 56, 54, 56, 55, 56, 56, 56, 57, 57, 48, 57, 49, 57, 50, 57, 51, 57, 52, 57, 53,
    57, 54, 57, 55, 57, 56, 57, 57,
];

// The byte of the tens of a number below a hundred.
pub fn tens(t: &[u8; 200], r: u32) -> u8
    requires { (t.now ≡ pairs) × (r < 100) }
    ensures { result ≡ 48 + r / 10 }
{
    let i = 2 * r as usize;
    t[i]
}

// The byte of its ones.
pub fn ones(t: &[u8; 200], r: u32) -> u8
    requires { (t.now ≡ pairs) × (r < 100) }
    ensures { result ≡ 48 + r % 10 }
{
    let i = 2 * r as usize + 1;
    t[i]
}

// For a number v of at most 31 bits by the zeros before them in 31: what makes the count of its digits the high half of a sum with v. Lent as the pairs are.
pub const COUNTS: [u64; 32] = [
    42949672960,
    41949672960,
    38654705664,
    38654705664,
    38554705664,
    34359738368,
    34359738368,
    34349738368,
    30064771072,
    30064771072,
    30064771072,
    30063771072,
    25769803776,
    25769803776,
    25769703776,
    21474836480,
    21474836480,
    21474826480,
    17179869184,
    17179869184,
    17179869184,
    17179868184,
    12884901888,
    12884901888,
    12884901788,
    8589934592,
    8589934592,
    8589934582,
    4294967296,
    4294967296,
    4294967296,
    4294967296,
];

// How many digits a number has. The zeros are those of a number that may be 0: the compiler sets the register before the instruction that finds the highest bit, which would wait for its old content.
pub fn digits_in(d: &[u64; 32], v: u64) -> usize
    requires { (d.now ≡ counts) × (v < 2147483648) }
    ensures { (result ≡ 1 + further 9 v) × (result ≤ 10) }
{
    let zeros = (v as u32).leading_zeros() as usize;
    let entry = d[zeros - 1];
    let sum = v + entry;
    (sum / 4294967296) as usize
}

// The n further digits of v but the first of an odd number of them, two at a time from the right; what is left of v.
// A loop by hand: a `for` backwards over the pairs took 4 in a hundred more instructions to write AFFN.
fn store_pairs(t: &[u8; 200], out: &mut [u8], at: usize, v: u64, n: usize) -> u32
    requires { (t.now ≡ pairs) × (n ≡ further 9 v) × (v < 4294967296) × (at + n ≤ length out.old) }
    ensures { Digits v n at out.old out.new result (n % 2) × (result < 100) }
{
    let mut w = v as u32;
    let mut j = n;
    while 2 <= j {
        let two = w % 100;
        let a = tens(t, two);
        let b = ones(t, two);
        let last = at + (j - 1);
        let before = at + (j - 2);
        out[last] = b;
        out[before] = a;
        w /= 100;
        j -= 2;
    }
    w
}

// The byte of a number's first digit, from what is left of it: its tens if a further digit is left too, else its ones.
fn lead_of(t: &[u8; 200], odd: usize, w: u32) -> u8
    requires { (t.now ≡ pairs) × (odd ≤ 1) × (w < 100) }
    ensures { (result ≡ 48 + pick (eqb odd 0) (w % 10) (w / 10)) × (result ≤ 57) }
{
    let i = 2 * w as usize + 1 - odd;
    t[i]
}

// A number with n further digits, its first digit written as `base` plus the digit. No jump tells whether n is odd: the second byte is stored before the first, and at its place if n is even.
pub fn store_number(t: &[u8; 200], out: &mut [u8], at: usize, base: u64, v: u64, n: usize)
    requires { (t.now ≡ pairs) × Storable base v n at (length out.old) }
    ensures { Put out.old at out.new (at + 1 + n) (number base v) }
{
    let next = at + 1;
    let w = store_pairs(t, out, next, v, n);
    let odd = n % 2;
    let lead = lead_of(t, odd, w);
    let second = ones(t, w);
    let b = (base - DIGIT + lead as u64) as u8;
    let last = at + odd;
    out[last] = second;
    out[at] = b;
}
