// Figures of records: factors, quotients, sizes with their signs, and whether an ordinate agrees with FIRSTY (01, "The file", "Numbers").
#![tactic(auto)]

ghost use Rattle.std.specs.Prelude.{◌≡◌, ◌<◌, ◌≤◌, eqb};
ghost use Rattle.table_spec.specs.Frame.{largest_abscissa, zero_ordinate, ordinate_of};
ghost use Rattle.table_spec.specs.Values.{signed};
ghost use Rattle.file_spec.specs.Figures.{exceeding, ratio, whole, agrees, exact_with};
ghost use Rattle.figure.specs.Bounds.{Small, GivenIn, Factor, FactorIn, RoundedIn};

use decimal_spec::{Quotient, Whole};
use file_spec::{Decimal, Exactness};
use frame::Frame;

// A factor exceeds zero (26).
pub fn exceed(g: Option<Decimal>) -> Option<Decimal>
    requires { GivenIn g }
    ensures { (result ≡ exceeding g) × FactorIn result }
{
    match g {
        None => None,
        Some(d) => {
            if d.minus {
                return None;
            }
            if d.mantissa == 0 {
                return None;
            }
            Some(d)
        }
    }
}

// The quotient of a decimal by a factor, in units of ten to the -k.
pub fn ratio_of(k: u64, d: Decimal, c: Decimal) -> Quotient
    requires { (k ≤ 3) × Small d × Factor c }
    ensures { (result ≡ ratio k d c) × RoundedIn result.rounded }
{
    quotient::quotient(
        d.minus,
        d.mantissa,
        d.power + k,
        c.mantissa,
        c.power,
        Frame::LARGEST_ABSCISSA as u64,
    )
}

// A size with its sign.
pub fn whole_of(minus: bool, size: u64) -> i64
    requires { size ≤ largest_abscissa }
    ensures { result ≡ whole minus size }
{
    let x = size as i64;
    if minus {
        return 0 - x;
    }
    x
}

// Is the first ordinate missing, or equal to the quotient? (29)
pub fn agree(y: i32, r: Option<Whole>) -> bool
    requires { RoundedIn r }
    ensures { result ≡ agrees (ordinate_of y) r }
{
    let u = signed::ordinate_of(y);
    if u == 0 {
        return true;
    }
    match r {
        None => false,
        Some(Whole { minus, size }) => equal_to(u, minus, size),
    }
}

// Is an ordinate that is not missing equal to a size with its sign?
fn equal_to(u: u64, minus: bool, size: u64) -> bool
    requires { (0 < u) × (size ≤ largest_abscissa) }
    ensures { result ≡ eqb u (signed zero_ordinate minus size) }
{
    let zero = signed::ordinate_of(0);
    if minus {
        if size >= zero {
            return false;
        }
        return u == zero - size;
    }
    u == zero + size
}

// Whether three quotients are exact, where the first ordinate is y: FIRSTY's is where it is missing, and so is not compared (02, T-08).
pub fn exact_with(first: bool, last: bool, firsty: bool, y: i32) -> Exactness
    ensures { result ≡ exact_with first last firsty (ordinate_of y) }
{
    let ordinate = signed::ordinate_of(y);
    if ordinate == 0 {
        return Exactness {
            first,
            last,
            firsty: true,
        };
    }
    Exactness {
        first,
        last,
        firsty,
    }
}
