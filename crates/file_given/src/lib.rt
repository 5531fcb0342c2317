// What the caller of the file's writer gives (02, T-04): the title (37), and the five decimals (26).
#![tactic(auto)]

ghost use Rattle.std.specs.Prelude.{◌≡◌, ◌<◌};
ghost use Rattle.file_spec.specs.Figures.{exceeding};
ghost use Rattle.figure.specs.Bounds.{GivenIn, FactorIn};
ghost use Rattle.file_write_spec.specs.File.{title_legal};
ghost use Rattle.file_given.specs.Titles.{fair_byte};
ghost use Rattle.file_given.specs.Taking.{given_of, from_firstx, figures_for};

use figure::exceed;
use file_spec::{Decimal, Numbers};
use file_write_spec::{GivenDecimal, Scales};
use text::byte_at;

// The most bytes of a title.
const LONGEST_TITLE: usize = 72;

// Where zero stands among numbers that `frame::lift` has lifted, as those below are.
const ZERO: u64 = 10000000000;

// Below the mantissas of at most nine digits.
const BELOW_MANTISSAS: u64 = 9000000000;

// Above them.
const ABOVE_MANTISSAS: u64 = 11000000000;

// Below the exponents of at most 99 in magnitude.
const BELOW_EXPONENTS: u64 = 9999999900;

// Above them.
const ABOVE_EXPONENTS: u64 = 10000000100;

// -200, from which the power of ten of a decimal is counted.
const ORIGIN: u64 = 9999999800;

// May the byte b, with c after it, stand in a title?
#[tactic(auto, unfolding(crate::specs::Titles::fair_byte))]
fn fair(b: u8, c: u8) -> bool
    ensures { result ≡ fair_byte b c }
{
    (32..=126).contains(&b) && (b != b'$' || c != b'$')
}

// A title of at most 72 bytes, each of them from 32 to 126, without `$$` (37).
pub fn title_fair(title: &[u8]) -> bool
    ensures { result ≡ title_legal title.now }
{
    if title.len() > LONGEST_TITLE {
        return false;
    }
    for (i, b) in title.iter().enumerate() {
        if !fair(*b, byte_at(title, i + 1)) {
            return false;
        }
    }
    true
}

// The decimal that a mantissa and an exponent are, or that one of them is outside its rule (26).
fn decimal_of(d: GivenDecimal) -> Option<Decimal>
    ensures { (result ≡ given_of d) × GivenIn result }
{
    let m = d.mantissa;
    let e = d.exponent;
    let u = frame::lift(m);
    let v = frame::lift(e);
    if u <= BELOW_MANTISSAS {
        return None;
    }
    if u >= ABOVE_MANTISSAS {
        return None;
    }
    if v <= BELOW_EXPONENTS {
        return None;
    }
    if v >= ABOVE_EXPONENTS {
        return None;
    }
    let power = v - ORIGIN;
    if u < ZERO {
        let below = ZERO - u;
        return Some(Decimal {
            minus: true,
            mantissa: below,
            power,
        });
    }
    let above = u - ZERO;
    Some(Decimal {
        minus: false,
        mantissa: above,
        power,
    })
}

// A factor: it exceeds zero too (26).
fn factor_of(d: GivenDecimal) -> Option<Decimal>
    ensures { (result ≡ exceeding (given_of d)) × FactorIn result }
{
    exceed(decimal_of(d))
}

// FIRSTX, LASTX and FIRSTY, after the factors.
fn figures_from_firstx(
    c: Scales,
    points: u64,
    xfactor: Decimal,
    yfactor: Decimal,
) -> Result<Numbers, usize>
    ensures { result ≡ from_firstx c points xfactor yfactor }
{
    let one = c.firstx;
    let Some(firstx) = decimal_of(one) else {
        return Err(0);
    };
    let two = c.lastx;
    let Some(lastx) = decimal_of(two) else {
        return Err(0);
    };
    let three = c.firsty;
    let Some(firsty) = decimal_of(three) else {
        return Err(0);
    };
    Ok(Numbers {
        xfactor,
        yfactor,
        firstx,
        lastx,
        npoints: points,
        firsty,
    })
}

// The numbers that a file says, or that one of them is outside its rule (26).
pub fn figures_of(c: Scales, points: u64) -> Result<Numbers, usize>
    ensures { result ≡ figures_for c points }
{
    let one = c.xfactor;
    let Some(xfactor) = factor_of(one) else {
        return Err(0);
    };
    let two = c.yfactor;
    let Some(yfactor) = factor_of(two) else {
        return Err(0);
    };
    figures_from_firstx(c, points, xfactor, yfactor)
}
