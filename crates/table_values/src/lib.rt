// The values of a line (01, "Values", "Meaning"), one after the other. The state goes in and comes back by value.
#![tactic(auto)]

ghost use Rattle.std.specs.Prelude.{◌≡◌, ◌≤◌, length};
ghost use Rattle.table_lines.specs.Ends.{Blanked};
ghost use Rattle.table_values.specs.Lines.{dif_form, placed, row_after, FirstValue, Lined};
ghost use Rattle.table_value.specs.States.{Sits, Stepped, Went};

use alphabet::{DIF, MISSING, POINT, entry_there, is_blank, standing};
use table_lines::{blanks, line_end};
use table_numbers::number;
use table_owns::owns;
use table_runs::differences;
use table_shorts::PERCENT;
use table_value::{Cur, Step, missing, value};
use terms::{Fault, Reason};

// Between lines: the place, how many points, the last ordinate (0: missing, or none on that line), and whether the line before ended in DIF form.
#[derive(Clone, Copy)]
pub struct Row {
    pub at: usize,
    pub k: usize,
    pub q: u64,
    pub dif: bool,
}

// The state past the blanks that stand at its place: they say nothing.
fn past_blanks(s: &[u8], c: Cur) -> Cur
    requires { c.at ≤ length s.now }
    ensures { Blanked s.now c.at result.at × (result ≡ placed c result.at) }
{
    let at = blanks(s, c.at);
    Cur { at, ..c }
}

// Whatever stands next on a line.
fn token(s: &[u8], points: usize, out: &mut [i32], c: Cur) -> Result<Step, Reason>
    requires { (points ≤ 65536) × Sits points s.now c }
    ensures { Stepped points s.now c out.old out.new result }
{
    let at = c.at;
    if is_blank(standing(s, at)) {
        return Ok(Step::Go(past_blanks(s, c)));
    }
    let e = entry_there(s, at);
    if e >= POINT {
        return match line_end(s, at, e) {
            Some(j) => Ok(Step::Line(j)),
            None => Err(Reason::StrayByte),
        };
    }
    if e == MISSING {
        return missing(s, points, out, c);
    }
    match number(s, at, e) {
        None => Err(Reason::Misspelled),
        Some((v, j)) => value(s, points, out, c, e, v, j),
    }
}

// Does a difference begin with the byte b, rather than an ordinate of its own? It only says which loop is tried, and either may be.
fn begins(b: u64) -> bool {
    if b == PERCENT {
        return true;
    }
    let letter = b - b / 32 % 2 * 32;
    letter >= 74 && letter <= 82
}

// As far as a run of short differences leads, or one of ordinates of their own.
fn run(s: &[u8], points: usize, out: &mut [i32], c: Cur) -> Cur
    requires { (points ≤ 65536) × Sits points s.now c }
    ensures { Went points s.now c result out.old out.new }
{
    if begins(standing(s, c.at)) {
        return differences(s, points, out, c);
    }
    owns(s, points, out, c)
}

// Is a form DIF?
fn in_dif(form: u64) -> bool
    ensures { result ≡ dif_form form }
{
    if form == 1 {
        return true;
    }
    form >= DIF
}

// The state after a line, from the last one within it; the next line stands at the place.
fn row_after(c: Cur, at: usize) -> Row
    ensures { result ≡ row_after c at }
{
    let dif = in_dif(c.form);
    Row {
        at,
        k: c.k,
        q: c.q,
        dif,
    }
}

// The values of a line, from a place on, with k points given; the first must equal `want`, if that is not 0.
pub fn values(
    s: &[u8],
    points: usize,
    out: &mut [i32],
    at: usize,
    k: usize,
    want: u64,
) -> Result<Row, Fault>
    requires { FirstValue points s.now at k }
    ensures { Lined points s.now at k want out.old out.new result }
{
    let mut c = Cur {
        at,
        k,
        q: 0,
        want,
        step: 0,
        form: 0,
    };
    loop {
        let a = past_blanks(s, c);
        let b = run(s, points, out, a);
        match token(s, points, out, b) {
            Ok(Step::Go(d)) => {
                c = d;
            }
            Ok(Step::Line(j)) => {
                return Ok(row_after(b, j));
            }
            Err(why) => {
                return Err(Fault::of(why, b.at));
            }
        }
    }
}
