// One value of a line (01, "Values", "Meaning"): what it does to the state within the line, which goes in and comes back by value.
#![tactic(auto)]

ghost use Rattle.std.specs.Prelude.{◌≡◌, ◌<◌, ◌≤◌, leb};
ghost use Rattle.alphabet_spec.specs.Entries.{entry_at};
ghost use Rattle.table_spec.specs.Values.{own, by, times};
ghost use Rattle.table_numbers.specs.Numbers.{Token};
ghost use Rattle.table_value.specs.States.{Sits, Valued, Again, Stepped};

use alphabet::{DIF, DIF_MINUS, KIND};
use signed::ZERO_ORDINATE;
use table_ordinates::{moved_by, put, repeat, shifted};
use terms::Reason;

// Within a line: the place; how many points; the ordinate before (0: none on this line, or missing); the ordinate that a check line's first value must equal (0: not
// asked); the size of the last difference; and the form of the value before: 0 none, or a DUP that is not DIF; 1 a DUP that is; 2 a value of its own; from DIF on a
// difference, and from DIF_MINUS on one that is minus. Numbers and no enums: `States.Codes` and `Holds` of specs/, stated by these numbers, say what each stands for.
#[derive(Clone, Copy)]
pub struct Cur {
    pub at: usize,
    pub k: usize,
    pub q: u64,
    pub want: u64,
    pub step: u64,
    pub form: u64,
}

// What one token did: the next state within the line, or the place of the next line.
#[derive(Clone, Copy)]
pub enum Step {
    Go(Cur),
    Line(usize),
}

// A missing ordinate.
pub fn missing(s: &[u8], points: usize, out: &mut [i32], c: Cur) -> Result<Step, Reason>
    requires { Sits points s.now c × (entry_at s.now c.at ≡ 96) }
    ensures { Stepped points s.now c out.old out.new result }
{
    let at = c.at;
    let k = c.k;
    let want = c.want;
    let next = at + 1;
    if want != 0 {
        return Err(Reason::CheckFailed);
    }
    if k >= points {
        return Err(Reason::TooMany);
    }
    put(out, k, 0);
    Ok(Step::Go(Cur {
        at: next,
        k: k + 1,
        q: 0,
        want: 0,
        step: 0,
        form: 2,
    }))
}

// An ordinate of its own; on a check line's start it is compared, and adds no point.
fn own_value(
    s: &[u8],
    points: usize,
    out: &mut [i32],
    c: Cur,
    minus: bool,
    v: u64,
    j: usize,
) -> Result<Step, Reason>
    requires { Sits points s.now c × Token s.now c.at (own minus v) j }
    ensures { Stepped points s.now c out.old out.new result }
{
    let k = c.k;
    let want = c.want;
    if v > 2147483647 {
        return Err(Reason::OutOfRange);
    }
    let u = moved_by(ZERO_ORDINATE, minus, v);
    if want != 0 {
        if u != want {
            return Err(Reason::CheckFailed);
        }
        return Ok(Step::Go(Cur {
            at: j,
            k,
            q: u,
            want: 0,
            step: 0,
            form: 2,
        }));
    }
    if k >= points {
        return Err(Reason::TooMany);
    }
    put(out, k, u);
    Ok(Step::Go(Cur {
        at: j,
        k: k + 1,
        q: u,
        want: 0,
        step: 0,
        form: 2,
    }))
}

// A difference that begins with the entry e.
fn difference(
    s: &[u8],
    points: usize,
    out: &mut [i32],
    c: Cur,
    e: u64,
    v: u64,
    j: usize,
) -> Result<Step, Reason>
    requires { Sits points s.now c × (v < 10000000000) × (32 ≤ e) × (e < 64) × Token s.now c.at (by (leb 48 e) v) j }
    ensures { Stepped points s.now c out.old out.new result }
{
    let k = c.k;
    let q = c.q;
    if q == 0 {
        return Err(Reason::Misplaced);
    }
    let u = shifted(q, e >= DIF_MINUS, v);
    if u == 0 {
        return Err(Reason::OutOfRange);
    }
    if k >= points {
        return Err(Reason::TooMany);
    }
    put(out, k, u);
    Ok(Step::Go(Cur {
        at: j,
        k: k + 1,
        q: u,
        want: 0,
        step: v,
        form: e,
    }))
}

// A DUP of a value of its own, or of a missing one: n further copies of the ordinate.
fn same_again(
    s: &[u8],
    points: usize,
    out: &mut [i32],
    c: Cur,
    n: usize,
    j: usize,
) -> Result<Step, Reason>
    requires { Again points s.now c n j × (2 ≤ c.form) × (c.form < 32) }
    ensures { Stepped points s.now c out.old out.new result }
{
    let k = c.k;
    let q = c.q;
    let end = k + n;
    if end > points {
        return Err(Reason::TooMany);
    }
    repeat(out, k, q, false, 0, n);
    Ok(Step::Go(Cur {
        at: j,
        k: end,
        q,
        want: 0,
        step: 0,
        form: 0,
    }))
}

// A DUP of a difference: n further steps.
fn steps_again(
    s: &[u8],
    points: usize,
    out: &mut [i32],
    c: Cur,
    n: usize,
    j: usize,
) -> Result<Step, Reason>
    requires { Again points s.now c n j × (32 ≤ c.form) }
    ensures { Stepped points s.now c out.old out.new result }
{
    let k = c.k;
    let q = c.q;
    let d = c.step;
    let form = c.form;
    let minus = form >= DIF_MINUS;
    let far = d * n as u64;
    let u = shifted(q, minus, far);
    if u == 0 {
        return Err(Reason::OutOfRange);
    }
    let end = k + n;
    if end > points {
        return Err(Reason::TooMany);
    }
    repeat(out, k, q, minus, d, n);
    Ok(Step::Go(Cur {
        at: j,
        k: end,
        q: u,
        want: 0,
        step: 0,
        form: 1,
    }))
}

// A DUP with the count v (01, "c is at least 2").
fn dup_value(
    s: &[u8],
    points: usize,
    out: &mut [i32],
    c: Cur,
    v: u64,
    j: usize,
) -> Result<Step, Reason>
    requires { Sits points s.now c × (points ≤ 65536) × (v < 100000) × Token s.now c.at (times v) j }
    ensures { Stepped points s.now c out.old out.new result }
{
    let form = c.form;
    if form < 2 {
        return Err(Reason::Misplaced);
    }
    if v < 2 {
        return Err(Reason::Misplaced);
    }
    let n = (v - 1) as usize;
    if form < DIF {
        return same_again(s, points, out, c, n, j);
    }
    steps_again(s, points, out, c, n, j)
}

// The value at the place, which begins with the entry e and has the number v.
pub fn value(
    s: &[u8],
    points: usize,
    out: &mut [i32],
    c: Cur,
    e: u64,
    v: u64,
    j: usize,
) -> Result<Step, Reason>
    requires { Valued points s.now c e v j }
    ensures { Stepped points s.now c out.old out.new result }
{
    let kind = e / KIND;
    if kind == 1 {
        return dup_value(s, points, out, c, v, j);
    }
    if e / DIF == 1 {
        return difference(s, points, out, c, e, v, j);
    }
    own_value(s, points, out, c, kind % 4 == 1, v, j)
}
