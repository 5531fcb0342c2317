// Bytes, counts and decimals of a written file (02, T-04), into the lent bytes at a place. Past their end nothing is stored.
#![tactic(auto)]

ghost use Rattle.std.specs.Prelude.{◌∷◌, ◌+◌, ◌^◌, ◌≤◌, ◌<◌, length};
ghost use Rattle.table_spec.specs.Groups.{plain_text};
ghost use Rattle.decimal_spec.specs.Number.{bound};
ghost use Rattle.table_text.specs.Pieces.{Put};
ghost use Rattle.file_write_spec.specs.Decimals.{two_digits};
ghost use Rattle.file_pieces.specs.Decimals.{power_text, text_of, Writable};

use file_spec::Decimal;
use table_text::digits::{DIGIT, further_digits, put, put_number};

// Where the power of ten 0 stands: powers are counted from -200 on.
const ORIGIN: u64 = 200;

// Some bytes. The place after them.
pub fn put_bytes(out: &mut [u8], at: usize, s: &[u8]) -> usize
    requires { (length s.now ≤ 100) × (at < 2 ^ 59) }
    ensures { Put out.old at out.new result s.now }
{
    for (i, b) in s.iter().enumerate() {
        put(out, at + i, *b);
    }
    at + s.len()
}

// A sign and two digits. The place after them.
fn put_two(out: &mut [u8], at: usize, sign: u8, x: u64) -> usize
    requires { (x < 100) × (at < 2 ^ 59) }
    ensures { Put out.old at out.new result (sign ∷ two_digits x) }
{
    let tens = (DIGIT + x / 10) as u8;
    let ones = (DIGIT + x % 10) as u8;
    put_bytes(out, at, &[sign, tens, ones])
}

// `E`, the sign of a power of ten, which is counted from -200 on, and two digits. The place after them.
fn put_power(out: &mut [u8], at: usize, p: u64) -> usize
    requires { (100 < p) × (p < 300) × (at < 2 ^ 58) }
    ensures { Put out.old at out.new result (power_text p) × (result ≤ at + 4) }
{
    put(out, at, b'E');
    let next = at + 1;
    if p >= ORIGIN {
        put_two(out, next, b'+', p - ORIGIN)
    } else {
        put_two(out, next, b'-', ORIGIN - p)
    }
}

// A number of at most nine digits. The place after it.
pub fn put_count(out: &mut [u8], at: usize, v: u64) -> usize
    requires { (v < bound) × (at < 2 ^ 58) }
    ensures { Put out.old at out.new result (plain_text v) × (result ≤ at + 10) }
{
    let n = further_digits(v);
    put_number(out, at, DIGIT, v, n)
}

// A decimal. The place after it.
pub fn put_decimal(out: &mut [u8], at: usize, d: Decimal) -> usize
    requires { Writable d × (at < 2 ^ 57) }
    ensures { Put out.old at out.new result (text_of d) × (result ≤ at + 15) }
{
    let m = d.mantissa;
    let p = d.power;
    if d.minus {
        put(out, at, b'-');
        let next = at + 1;
        let e = put_count(out, next, m);
        return put_power(out, e, p);
    }
    let e = put_count(out, at, m);
    put_power(out, e, p)
}
