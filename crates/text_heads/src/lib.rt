// Heads into the lent bytes, and how many bytes they have (01, "The written text"). Inner functions: the frame is a sound one, and places are far from the largest number.
#![tactic(auto)]

ghost use Rattle.std.specs.Prelude.{◌≡◌, ◌+◌, ◌^◌, ◌≤◌, ◌<◌, length};
ghost use Rattle.table_spec.specs.Numerals.{magnitude};
ghost use Rattle.frame.specs.Legal.{Sound};
ghost use Rattle.table_text.specs.Pieces.{Put, head_of};

use frame::Frame;
use table_text::digits::{DIGIT, further_digits, put, put_number};
use text_thousandths::{abscissa, put_fraction};

// g thousandths. The place after them.
fn put_magnitude(out: &mut [u8], at: usize, g: u64) -> usize
    requires { (g ≤ 10000000000) × (at < 2 ^ 60) }
    ensures { Put out.old at out.new result (magnitude g) × (result ≤ at + 14) }
{
    let whole = g / 1000;
    let part = g % 1000;
    let n = further_digits(whole);
    let point = put_number(out, at, DIGIT, whole, n);
    put_fraction(out, point, part)
}

// The head of the point i. The place after it.
pub fn put_head(out: &mut [u8], at: usize, fr: Frame, i: usize) -> usize
    requires { Sound fr × (i < fr.points) × (at < 2 ^ 59) }
    ensures { Put out.old at out.new result (head_of fr i) × (result ≤ at + 15) }
{
    let h = abscissa(fr, i);
    if 10000000000 <= h {
        return put_magnitude(out, at, h - 10000000000);
    }
    put(out, at, b'-');
    let next = at + 1;
    put_magnitude(out, next, 10000000000 - h)
}

// The bytes of the head of the point i: the place after it where nothing is lent.
pub fn head_bytes(fr: Frame, i: usize) -> usize
    requires { Sound fr × (i < fr.points) }
    ensures { (result ≡ length (head_of fr i)) × (result ≤ 15) }
{
    put_head(&mut [], 0, fr, i)
}
