// The abscissa of a point in thousandths, and those that stand after the point (01, "The written text"). Inner functions: the frame is a sound one, and places are far from the largest number.
#![tactic(auto)]

ghost use Rattle.std.specs.Prelude.{◌≡◌, ◌+◌, ◌^◌, ◌≤◌, ◌<◌, length};
ghost use Rattle.table_spec.specs.Frame.{nearest};
ghost use Rattle.table_spec.specs.Numerals.{fraction};
ghost use Rattle.frame.specs.Legal.{Sound};
ghost use Rattle.table_text.specs.Pieces.{Put};

use frame::Frame;
use table_text::digits::{DIGIT, put};

// The abscissa of the point i, to the nearest thousandth, halves to the larger.
pub fn abscissa(fr: Frame, i: usize) -> u64
    requires { Sound fr × (i < fr.points) }
    ensures { (result ≡ nearest fr.first fr.last fr.points i) × (result < 20000000000) }
{
    let first = fr.first;
    let last = fr.last;
    let n = fr.points;
    if n == 1 {
        return first;
    }
    let steps = (n - 1) as u64;
    let index = i as u64;
    let before = first * (steps - index);
    let after = last * index;
    let exact = before + after;
    let halves = exact + exact + steps;
    halves / (steps + steps)
}

// The thousandths f after the point, without trailing zeros; for none, no point either. The place after them.
pub fn put_fraction(out: &mut [u8], at: usize, f: u64) -> usize
    requires { (f < 1000) × (at < 2 ^ 61) }
    ensures { Put out.old at out.new result (fraction f) × (result ≤ at + 4) }
{
    if f == 0 {
        return at;
    }
    let tenth = (DIGIT + f / 100) as u8;
    let hundredth = (DIGIT + f / 10 % 10) as u8;
    let thousandth = (DIGIT + f % 10) as u8;
    put(out, at, b'.');
    put(out, at + 1, tenth);
    if f % 100 == 0 {
        return at + 2;
    }
    put(out, at + 2, hundredth);
    if f % 10 == 0 {
        return at + 3;
    }
    put(out, at + 3, thousandth);
    at + 4
}

// The bytes of the thousandths after the point, and of the point: the place after them where nothing is lent.
pub fn fraction_length(part: u64) -> usize
    requires { part < 1000 }
    ensures { (result ≡ length (fraction part)) × (result ≤ 4) }
{
    put_fraction(&mut [], 0, part)
}
