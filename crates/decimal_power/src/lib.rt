// The exponent of a number of a file (01, The file, "Numbers").
#![tactic(auto)]

ghost use Rattle.std.specs.Prelude.{◌≤◌, length};
ghost use Rattle.decimal_power.specs.Found.{ExponentFound, PowerFound};

use decimal_spec::Exponent;
use text::byte_at;

// Powers of ten are counted from -200 on, so that none is negative.
const ORIGIN: u64 = 200;

// The digits of an exponent, after its sign.
fn power_digits(s: &[u8], at: usize, minus: bool) -> Option<Exponent>
    requires { at ≤ length s.now }
    ensures { PowerFound s.now at minus result }
{
    let all = alphabet::digits(s, at, 0, 3);
    let x = all.v;
    let end = all.at;
    let after = all.b;
    if alphabet::is_digit(after) {
        return None;
    }
    if end - at < 2 {
        return None;
    }
    if x > 99 {
        return None;
    }
    let less = ORIGIN - x;
    let more = ORIGIN + x;
    if minus {
        Some(Exponent { power: less, end })
    } else {
        Some(Exponent { power: more, end })
    }
}

// The exponent at a place, or that there is none.
pub fn exponent(s: &[u8], at: usize) -> Option<Exponent>
    requires { at ≤ length s.now }
    ensures { ExponentFound s.now at result }
{
    if byte_at(s, at) != b'E' {
        return Some(Exponent {
            power: ORIGIN,
            end: at,
        });
    }
    let next = at + 1;
    let sign = byte_at(s, next);
    if sign == b'+' {
        let first = at + 2;
        return power_digits(s, first, false);
    }
    if sign == b'-' {
        let first = at + 2;
        return power_digits(s, first, true);
    }
    None
}
