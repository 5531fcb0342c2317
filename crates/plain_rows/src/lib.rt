// A line of the plain engine (02, T-14): it is expanded to its row, the row is checked, and its points are laid. No row is kept: a check asks only for its first ordinate, its last one, its count, its
// form and its first fault, so a row is expanded into the part of the lent slice where it will lie.
#![tactic(auto)]

ghost use Rattle.std.specs.Prelude.{◌≡◌, true, false};
ghost use Rattle.frame.specs.Legal.{Sound};
ghost use Rattle.table_lines.specs.Ends.{LineOpens};
ghost use Rattle.table_pass.specs.Rows.{frame_rules, Rests, LineSays};
ghost use Rattle.plain_rows.specs.Rows.{after_head, after_rest, start_of, Fronts};

use frame::Frame;
use plain_expand::{Grows, Next, expand, next_value};
use plain_values::{Form, Points, is_dif};
use table_lines::head;
use table_ordinates::put;
use table_pass::index_of;
use table_values::Row;
use terms::{Fault, Reason};

// The front of a row: the place of its head, and whether the head passes; what its first value stands for, its place and the place after it.
#[derive(Clone, Copy)]
pub struct Front {
    pub at: usize,
    pub passes: bool,
    pub p: Points,
    pub a: usize,
    pub b: usize,
}

// ---- 1. its row is checked

// The fault of a row, if its head passes: else 6, at the head.
fn refused(passes: bool, at: usize, fault: Fault) -> Result<Row, Fault>
    ensures { result ≡ after_head passes at fault.number fault.place }
{
    if passes {
        return Err(fault);
    }
    Err(Fault::of(Reason::WrongHead, at))
}

// What a line did, by the check of its head and the rest of its row.
fn checked(passes: bool, at: usize, rest: Result<(Grows, usize), Fault>) -> Result<Row, Fault>
    ensures { result ≡ after_rest passes at rest }
{
    match rest {
        Err(fault) => refused(passes, at, fault),
        Ok((g, next)) => {
            if !passes {
                return Err(Fault::of(Reason::WrongHead, at));
            }
            let form = g.form;
            Ok(Row {
                at: next,
                k: g.k,
                q: g.q,
                dif: is_dif(form),
            })
        }
    }
}

// ---- 2. a line, with the points before it

// A row from its first ordinate on, which is the k-th point.
fn row_from(f: Front, k: usize) -> Grows
    ensures { result ≡ start_of f k }
{
    let p = f.p;
    let form = p.form;
    Grows {
        at: f.b,
        k,
        q: p.last,
        form,
    }
}

// A check line (01, "Checks"): its first ordinate must equal the last point, or 10; it is no point itself, so it is not laid.
fn check_row(s: &[u8], fr: Frame, out: &mut [i32], r: Row, f: Front) -> Result<Row, Fault>
    requires { Sound fr × Rests fr.points s.now r × Fronts fr s.now r f × (r.dif ≡ true) }
    ensures { LineSays (frame_rules fr) s.now r f.at out.old out.new result }
{
    let start = row_from(f, r.k);
    let rest = expand(s, fr.points, out, start);
    if f.p.last != r.q {
        return refused(f.passes, f.at, Fault::of(Reason::CheckFailed, f.a));
    }
    checked(f.passes, f.at, rest)
}

// Another line: its first ordinate is a point too, or 11.
fn new_row(s: &[u8], fr: Frame, out: &mut [i32], r: Row, f: Front) -> Result<Row, Fault>
    requires { Sound fr × Rests fr.points s.now r × Fronts fr s.now r f × (r.dif ≡ false) }
    ensures { LineSays (frame_rules fr) s.now r f.at out.old out.new result }
{
    let k = r.k;
    if k >= fr.points {
        return refused(f.passes, f.at, Fault::of(Reason::TooMany, f.a));
    }
    put(out, k, f.p.last);
    let next = k + 1;
    let start = row_from(f, next);
    let rest = expand(s, fr.points, out, start);
    checked(f.passes, f.at, rest)
}

// A line whose head stands at a place with the entry e: 4; then it is expanded to its row, and the row is checked: 6, 7, 10, 11 and its own faults. By itself a line begins as after a DUP that is not
// DIF: neither a difference nor a DUP can stand first.
pub fn plain_line(
    s: &[u8],
    fr: Frame,
    out: &mut [i32],
    r: Row,
    at: usize,
    e: u64,
) -> Result<Row, Fault>
    requires { Sound fr × Rests fr.points s.now r × LineOpens s.now at e }
    ensures { LineSays (frame_rules fr) s.now r at out.old out.new result }
{
    let dif = r.dif;
    let k = r.k;
    match head(s, at, e) {
        None => Err(Fault::of(Reason::NoHead, at)),
        Some(top) => {
            let passes = fr.passes(top.abscissa, top.unit, index_of(dif, k));
            match next_value(s, top.at, 0, Form::Dup(false)) {
                Ok(Next::End(_)) => refused(passes, at, Fault::of(Reason::BareHead, at)),
                Err(fault) => refused(passes, at, fault),
                Ok(Next::Gives(p, a, b)) => {
                    let f = Front {
                        at,
                        passes,
                        p,
                        a,
                        b,
                    };
                    if dif {
                        return check_row(s, fr, out, r, f);
                    }
                    new_row(s, fr, out, r, f)
                }
            }
        }
    }
}
