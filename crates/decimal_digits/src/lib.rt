// The digits of a number of a file (01, The file, "Numbers"): with at most one point, or digits only.
#![tactic(auto)]

ghost use Rattle.std.specs.Prelude.{◌≡◌, ◌≤◌, length};
ghost use Rattle.decimal_spec.specs.Number.{mantissa_of};
ghost use Rattle.decimal_digits.specs.Found.{MantissaFound, CountFound};

use decimal_spec::{Count, Mantissa};
use text::byte_at;

// The most digits of a number, those after the point counted.
const MOST_DIGITS: usize = 12;

// A number has at most nine digits from the first non-zero on: it is below this.
const BOUND: u64 = 1000000000;

// What the digits of a number make: n of them, f behind the point, and the place after them.
fn mantissa_of(v: u64, n: usize, f: usize, end: usize) -> Option<Mantissa>
    ensures { result ≡ mantissa_of v n f end }
{
    if n == 0 {
        return None;
    }
    if v >= BOUND {
        return None;
    }
    Some(Mantissa {
        value: v,
        behind: f as u64,
        end,
    })
}

// The digits at a place, with at most one point.
pub fn mantissa(s: &[u8], at: usize) -> Option<Mantissa>
    requires { at ≤ length s.now }
    ensures { MantissaFound s.now at result }
{
    let whole = alphabet::digits(s, at, 0, MOST_DIGITS);
    let v = whole.v;
    let point = whole.at;
    let after = whole.b;
    if alphabet::is_digit(after) {
        return None;
    }
    let n = point - at;
    if byte_at(s, point) != b'.' {
        return mantissa_of(v, n, 0, point);
    }
    let first = point + 1;
    let left = MOST_DIGITS - n;
    let all = alphabet::digits(s, first, v, left);
    let w = all.v;
    let end = all.at;
    let beyond = all.b;
    if alphabet::is_digit(beyond) {
        return None;
    }
    let f = end - first;
    let count = n + f;
    mantissa_of(w, count, f, end)
}

// The number of digits only at a place of a text, as NPOINTS has it. An inner function, as `number` is.
pub fn count(s: &[u8], at: usize) -> Option<Count>
    requires { at ≤ length s.now }
    ensures { CountFound s.now at result }
{
    let all = alphabet::digits(s, at, 0, MOST_DIGITS);
    let v = all.v;
    let end = all.at;
    let after = all.b;
    if alphabet::is_digit(after) {
        return None;
    }
    if end == at {
        return None;
    }
    if v >= BOUND {
        return None;
    }
    Some(Count { value: v, end })
}
