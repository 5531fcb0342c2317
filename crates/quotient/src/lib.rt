// The rounded quotient of two decimals (01, The file: "from a table of powers of ten"), for F, L and FIRSTY, and whether it is exact (02, T-08).
// An inner function: mantissas are below 10^9, and the divisor is above 0.
#![tactic(auto)]

ghost use Rattle.std.specs.Prelude.{◌≡◌, ◌-◌, ◌*◌, ◌<◌, ◌^◌};
ghost use Rattle.decimal_spec.specs.Number.{bound};
ghost use Rattle.decimal_spec.specs.Quotient.{quotient_of};

use decimal_spec::Quotient;
use nearest_whole::{beyond, limited, zero};

// The table of powers of ten, from ten to the 0 on.
const POWERS: [u64; 19] = [
    1,
    10,
    100,
    1000,
    10000,
    100000,
    1000000,
    10000000,
    100000000,
    1000000000,
    10000000000,
    100000000000,
    1000000000000,
    10000000000000,
    100000000000000,
    1000000000000000,
    10000000000000000,
    100000000000000000,
    1000000000000000000,
];

// Ten to the n.
fn power(n: usize) -> u64
    requires { n < 19 }
    ensures { result ≡ 10 ^ n }
{
    POWERS[n]
}

// The quotient of two decimals, m1 times ten to the e1 by m2 times ten to the e2, as a file's F, L and first ordinate ask it: for all
// exponents, which are counted from one origin below the least. A product is formed only where it is below ten to the 19; where it
// is not, the answer is zero, and exact if the dividend is zero, or beyond without it. An inner function: what it requires of the
// mantissas is what `number` ensures and, of the divisor, that a factor exceeds zero (01, The file); the limit is the caller's.
pub fn quotient(minus: bool, m1: u64, e1: u64, m2: u64, e2: u64, limit: u64) -> Quotient
    requires { (m1 < bound) × (0 < m2) × (m2 < bound) × (limit < 10000000000) }
    ensures { result ≡ quotient_of limit minus (m1 * 10 ^ e1) (m2 * 10 ^ e2) }
{
    if e1 < e2 {
        let down = e2 - e1;
        if down > 9 {
            return zero(m1 == 0);
        }
        let p = power(down as usize);
        let b = m2 * p;
        return limited(minus, m1, b, limit);
    }
    if m1 == 0 {
        return zero(true);
    }
    let up = e1 - e2;
    if up > 18 {
        return beyond();
    }
    let p = power(up as usize);
    let most = 9999999999999999999 / p;
    if m1 > most {
        return beyond();
    }
    let a = m1 * p;
    limited(minus, a, m2, limit)
}
