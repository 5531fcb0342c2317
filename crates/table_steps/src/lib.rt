// A step of a run (01, "Meaning"): past one short difference, or past the DUP of the last one.
#![tactic(auto)]

ghost use Rattle.std.specs.Prelude.{◌≡◌};
ghost use Rattle.alphabet.specs.Standing.{«standing»};
ghost use Rattle.table_steps.specs.Ways.{apart, Fare, Onward};

use alphabet::standing_in;
use table_ordinates::{put, repeat, turned};
use table_shorts::{short, short_count};

// The byte of j: from it on the letters are minus.
const LOWER: u64 = 106;

// How far a run has come: the place, how many points, the ordinate, and the one before the last difference; 0 for that, if a DUP stands last, or nothing yet. And before which place it
// takes values: a difference takes a byte or more and adds a point, so that no more points come than bytes are left; the points of a DUP are taken from them.
#[derive(Clone, Copy)]
pub struct Way {
    pub at: usize,
    pub k: usize,
    pub before: u64,
    pub q: u64,
    pub end: usize,
}

// How far apart two ordinates are.
pub fn apart(p: u64, q: u64) -> u64
    ensures { result ≡ apart p q }
{
    if q < p {
        return p - q;
    }
    q - p
}

// The way past the DUP at its place, which begins with the byte b: of the last difference, and of no more points than the run has room for. Or the way as it was.
fn repeated(s: &[u8], out: &mut [i32], w: Way, b: u64) -> Way
    requires { Fare s.now w × (b ≡ standing s.now w.at) }
    ensures { Onward s.now w result out.old out.new }
{
    let at = w.at;
    let k = w.k;
    let before = w.before;
    let q = w.q;
    let end = w.end;
    if before == 0 {
        return w;
    }
    let r = short_count(s, at, b);
    if r.v < 2 {
        return w;
    }
    let n = (r.v - 1) as usize;
    if n > end - at {
        return w;
    }
    let d = apart(before, q);
    let minus = q < before;
    let u = turned(q, minus, d * n as u64);
    repeat(out, k, q, minus, d, n);
    Way {
        at: r.at,
        k: k + n,
        before: 0,
        q: u,
        end: end - n,
    }
}

// The way past what stands at its place: a short difference, or the DUP of the last one. Or the way as it was.
pub fn onward(s: &[u8], out: &mut [i32], w: Way) -> Way
    requires { Fare s.now w }
    ensures { Onward s.now w result out.old out.new }
{
    let at = w.at;
    let k = w.k;
    let q = w.q;
    let end = w.end;
    let b = standing_in(s, at);
    let r = short(s, at, b);
    if r.at == at {
        return repeated(s, out, w, b);
    }
    let u = turned(q, b >= LOWER, r.v);
    put(out, k, u);
    Way {
        at: r.at,
        k: k + 1,
        before: q,
        q: u,
        end,
    }
}
