// A line of the plain engine is expanded (02, T-14): what stands next on it, and the rest of a row, into the part of the lent slice where it will lie.
#![tactic(auto)]

ghost use Rattle.std.specs.Prelude.{◌<◌, ◌≤◌, length};
ghost use Rattle.plain_values.specs.Means.{form_of, Right};
ghost use Rattle.plain_expand.specs.Grows.{NextSays, Stands, Expands};

use alphabet::{MISSING, POINT, entry_at};
use plain_values::{Form, Points, missing_point, stands_for};
use table_lines::{blanks, line_end};
use table_numbers::number;
use table_ordinates::repeat;
use terms::{Fault, Reason};

// What stands next on a line: its end, and the place of the next line; or a value that stands for ordinates, its place and the place after it.
#[derive(Clone, Copy)]
pub enum Next {
    End(usize),
    Gives(Points, usize, usize),
}

// A row that grows: the place; how many points there are with it; its last ordinate, and the form of its last value.
#[derive(Clone, Copy)]
pub struct Grows {
    pub at: usize,
    pub k: usize,
    pub q: u64,
    pub form: Form,
}

// What stands next on a line, after an ordinate q of a form.
pub fn next_value(s: &[u8], from: usize, q: u64, form: Form) -> Result<Next, Fault>
    requires { (0 < from) × (from ≤ length s.now) × (q < 4294967296) × Right form q }
    ensures { NextSays s.now from q (form_of form) result }
{
    let at = blanks(s, from);
    let e = entry_at(s, at);
    if e >= POINT {
        return match line_end(s, at, e) {
            Some(j) => Ok(Next::End(j)),
            None => Err(Fault::of(Reason::StrayByte, at)),
        };
    }
    if e == MISSING {
        let next = at + 1;
        let p = missing_point();
        return Ok(Next::Gives(p, at, next));
    }
    match number(s, at, e) {
        None => Err(Fault::of(Reason::Misspelled, at)),
        Some((v, j)) => match stands_for(q, form, e, v) {
            Err(why) => Err(Fault::of(why, at)),
            Ok(p) => Ok(Next::Gives(p, at, j)),
        },
    }
}

// The rest of a row, laid from the index k on as far as there is room: what it grew to, and the place of the next line; 11 at the value that brings more points than so many.
pub fn expand(
    s: &[u8],
    points: usize,
    out: &mut [i32],
    start: Grows,
) -> Result<(Grows, usize), Fault>
    requires { (points ≤ 65536) × Stands points s.now start }
    ensures { Expands points s.now start out.old out.new result }
{
    let mut r = start;
    loop {
        let k = r.k;
        let f = r.form;
        match next_value(s, r.at, r.q, f)? {
            Next::End(j) => {
                return Ok((r, j));
            }
            Next::Gives(p, a, j) => {
                let n = p.n;
                let form = p.form;
                let end = k + n;
                if end > points {
                    return Err(Fault::of(Reason::TooMany, a));
                }
                repeat(out, k, p.q, p.minus, p.d, n);
                r = Grows {
                    at: j,
                    k: end,
                    q: p.last,
                    form,
                };
            }
        }
    }
}
