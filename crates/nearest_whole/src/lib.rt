// The whole number nearest to a quotient (01, The file), held to a limit, and whether it is exact (02, T-08). Inner functions: the divisor is above 0 and the numbers fit.
#![tactic(auto)]

ghost use Rattle.std.specs.Prelude.{◌≡◌, ◌<◌, ◌≤◌};
ghost use Rattle.decimal_spec.specs.Quotient.{Nearest, IsQuotient, zero_quotient, beyond_quotient};

use decimal_spec::{Quotient, Whole};

// The size of the whole number nearest to a / b, halves to the larger. Twice the rest is formed, since twice a may not fit.
fn nearest(minus: bool, a: u64, b: u64) -> u64
    requires { (0 < b) × (b ≤ 1000000000000000000) × (a < 10000000000000000000) }
    ensures { Nearest minus a b result }
{
    let q = a / b;
    let rest = a % b;
    let twice = 2 * rest;
    let more = q + 1;
    if twice > b {
        return more;
    }
    if twice < b {
        return q;
    }
    if minus { q } else { more }
}

// Zero, exact or not.
pub fn zero(exact: bool) -> Quotient
    ensures { result ≡ zero_quotient exact }
{
    Quotient {
        rounded: Some(Whole {
            minus: false,
            size: 0,
        }),
        exact,
    }
}

// What lies beyond the limit.
pub fn beyond() -> Quotient
    ensures { result ≡ beyond_quotient }
{
    Quotient {
        rounded: None,
        exact: false,
    }
}

// The same held to the limit, with no sign for zero; exact if nothing is left.
pub fn limited(minus: bool, a: u64, b: u64, limit: u64) -> Quotient
    requires { (0 < b) × (b ≤ 1000000000000000000) × (a < 10000000000000000000) }
    ensures { IsQuotient limit minus a b result }
{
    let q = nearest(minus, a, b);
    if q > limit {
        return beyond();
    }
    let exact = a % b == 0;
    if q == 0 {
        return zero(exact);
    }
    Quotient {
        rounded: Some(Whole { minus, size: q }),
        exact,
    }
}
