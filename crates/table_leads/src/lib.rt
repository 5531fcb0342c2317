// An ordinate of its own at a place (01, "Values": AFFN, PAC and SQZ): with what it begins, its number and its sign.
#![tactic(auto)]

ghost use Rattle.std.specs.Prelude.{◌≡◌, true, ◌+◌, ◌<◌, ◌≤◌, length};
ghost use Rattle.alphabet_spec.specs.Digits.{within};
ghost use Rattle.alphabet.specs.Standing.{«standing»};
ghost use Rattle.table_leads.specs.Leads.{falls, Leading, OwnAt};

use alphabet::{Run, digits_in, is_blank, is_digit, standing_in};

// The byte of `+`.
const PLUS: u64 = 43;

// The byte of `-`.
const MINUS: u64 = 45;

// The byte of a: from it on the letters are minus.
const LOWER: u64 = 97;

// The number of no ordinate.
const NONE: u64 = 10000000000;

// With what an ordinate of its own begins: its first digit, and the place after that; 10 in place of a digit, if none begins there.
#[derive(Clone, Copy)]
struct Lead {
    v: u64,
    at: usize,
}

// No ordinate of its own begins there. The place is said as if one did, so that it does not wait for the byte that was looked at.
fn no_lead(at: usize) -> Lead
    ensures { result ≡ record { v = 10; at = at } }
{
    Lead { v: 10, at }
}

// The digit b at a place, if it stands directly after a blank.
fn digit_lead(s: &[u8], at: usize, b: u64) -> Lead
    requires { (0 < at) × (at < length s.now) × (within 48 10 b ≡ true) × (b ≡ standing s.now at) }
    ensures { Leading s.now at b result }
{
    let next = at + 1;
    if is_blank(standing_in(s, at - 1)) {
        return Lead {
            v: b - 48,
            at: next,
        };
    }
    no_lead(next)
}

// The digit after the sign b at a place, if one stands there.
fn sign_lead(s: &[u8], at: usize, b: u64) -> Lead
    requires { (at + 1 < length s.now) × (b ≡ standing s.now at) }
    ensures { Leading s.now at b result }
{
    let next = at + 1;
    let end = next + 1;
    if b != PLUS {
        if b != MINUS {
            return no_lead(end);
        }
    }
    let x = standing_in(s, next);
    if !is_digit(x) {
        return no_lead(end);
    }
    Lead { v: x - 48, at: end }
}

// The first digit of the ordinate of its own at a place, where the byte b stands. A small letter is 32 above its capital: one test for both. An @ is left to the values of a line.
fn first_digit(s: &[u8], at: usize, b: u64) -> Lead
    requires { (0 < at) × (at + 1 < length s.now) × (b ≡ standing s.now at) }
    ensures { Leading s.now at b result }
{
    if is_digit(b) {
        return digit_lead(s, at, b);
    }
    let letter = b - b / 32 % 2 * 32;
    if letter < 65 || letter > 73 {
        return sign_lead(s, at, b);
    }
    Lead {
        v: letter - 64,
        at: at + 1,
    }
}

// Is an ordinate minus that begins with the byte b?
pub fn falls(b: u64) -> bool
    ensures { result ≡ falls b }
{
    if b == MINUS {
        return true;
    }
    b >= LOWER
}

// The number of the ordinate of its own at a place, where the byte b stands, and the place after it; a number above that of every ordinate, if none stands there.
pub fn own_number(s: &[u8], at: usize, b: u64) -> Run
    requires { (0 < at) × (at + 12 ≤ length s.now) × (b ≡ standing s.now at) }
    ensures { OwnAt s.now at b result }
{
    let l = first_digit(s, at, b);
    if l.v > 9 {
        return Run { v: NONE, at, b };
    }
    let r = digits_in(s, l.at, l.v, 9);
    if is_digit(r.b) {
        return Run { v: NONE, at, b };
    }
    r
}
