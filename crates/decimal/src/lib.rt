// The numbers of a file (01, The file, "Numbers"): how one is read.
#![tactic(auto)]

ghost use Rattle.std.specs.Prelude.{◌≤◌, length};
ghost use Rattle.decimal.specs.Found.{UnsignedFound, NumberFound};

use decimal_digits::mantissa;
use decimal_power::exponent;
use decimal_spec::Number;
use text::byte_at;

// A number after its sign.
fn unsigned(s: &[u8], at: usize, minus: bool) -> Option<Number>
    requires { at ≤ length s.now }
    ensures { UnsignedFound s.now at minus result }
{
    let digits = mantissa(s, at)?;
    let raised = exponent(s, digits.end)?;
    Some(Number {
        minus,
        mantissa: digits.value,
        power: raised.power - digits.behind,
        end: raised.end,
    })
}

// The number at a place of a text. An inner function: the place is one of the text or its end.
// What stands after the number is the caller's to judge.
pub fn number(s: &[u8], at: usize) -> Option<Number>
    requires { at ≤ length s.now }
    ensures { NumberFound s.now at result }
{
    let sign = byte_at(s, at);
    if sign == b'+' {
        let first = at + 1;
        return unsigned(s, first, false);
    }
    if sign == b'-' {
        let first = at + 1;
        return unsigned(s, first, true);
    }
    unsigned(s, at, false)
}
