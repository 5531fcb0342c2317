// A short value at a place (01, "Values"): a difference, or a DUP, of at most four digits, where five bytes stand.
#![tactic(auto)]

ghost use Rattle.std.specs.Prelude.{◌≡◌, ◌+◌, ◌≤◌, length};
ghost use Rattle.alphabet.specs.Standing.{«standing»};
ghost use Rattle.table_shorts.specs.Short.{Short, Counted};

use alphabet::{Run, few_digits, is_digit, standing_in};

// The byte of `%`, the difference 0.
pub const PERCENT: u64 = 37;

// What is answered where no short value stands: the place itself.
fn nothing(at: usize, b: u64) -> Run
    ensures { result ≡ record { v = 0; at = at; b = b } }
{
    Run { v: 0, at, b }
}

// The difference 0, if `%` stands at the place, and no digit after it.
fn zero_difference(s: &[u8], at: usize, b: u64) -> Run
    requires { (at + 5 ≤ length s.now) × (b ≡ standing s.now at) }
    ensures { Short s.now at b result }
{
    if b != PERCENT {
        return nothing(at, b);
    }
    let next = at + 1;
    let x = standing_in(s, next);
    if is_digit(x) {
        return nothing(at, b);
    }
    Run {
        v: 0,
        at: next,
        b: x,
    }
}

// The difference at a place, which begins with the byte b, if it has at most four digits: its number and the place after it. A small letter is 32 above its capital: one test for both.
pub fn short(s: &[u8], at: usize, b: u64) -> Run
    requires { (at + 5 ≤ length s.now) × (b ≡ standing s.now at) }
    ensures { Short s.now at b result }
{
    let letter = b - b / 32 % 2 * 32;
    if letter < 74 || letter > 82 {
        return zero_difference(s, at, b);
    }
    let r = few_digits(s, at + 1, letter - 73);
    if is_digit(r.b) {
        return nothing(at, b);
    }
    r
}

// The count of a DUP of at most four digits at a place, which begins with the byte b, and the place after it; or 0, if none stands there. S to Z: an s is left to the values of a line.
pub fn short_count(s: &[u8], at: usize, b: u64) -> Run
    requires { (at + 5 ≤ length s.now) × (b ≡ standing s.now at) }
    ensures { Counted s.now at result }
{
    if b < 83 || b > 90 {
        return nothing(at, b);
    }
    let r = few_digits(s, at + 1, b - 82);
    if is_digit(r.b) {
        return nothing(at, b);
    }
    r
}
