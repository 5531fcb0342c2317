// One pass over a body, line after line (01, "Spelling of a body", "Checks"): it answers, and stores each ordinate that there is room for.
#![tactic(auto)]

ghost use Rattle.std.specs.Prelude.{◌≡◌};
ghost use Rattle.frame.specs.Legal.{Sound};
ghost use Rattle.table_lines.specs.Ends.{LineOpens};
ghost use Rattle.terms.specs.Logic.{pick};
ghost use Rattle.table_spec.specs.Values.{index};
ghost use Rattle.table_pass.specs.Rows.{frame_rules, Rests, LineSays, finished, PassSays};

use frame::Frame;
use table_lines::{Start, bare_line, head, row_start};
use table_values::{Row, values};
use terms::{Fault, Reason};

// The index that a head belongs to: the last point given on a check line, else the next (01, "Checks").
pub fn index_of(dif: bool, k: usize) -> usize
    ensures { result ≡ index dif k }
{
    if !dif {
        return k;
    }
    if k == 0 {
        return 0;
    }
    k - 1
}

// The ordinate that a line's first value must equal: the last one given on a check line, else none.
fn wanted(dif: bool, q: u64) -> u64
    ensures { result ≡ pick dif q 0 }
{
    if dif {
        return q;
    }
    0
}

// A line whose head stands at a place with the entry e: 4, 6, 7, then its values.
fn read_line(s: &[u8], fr: Frame, out: &mut [i32], r: Row, at: usize, e: u64) -> Result<Row, Fault>
    requires { Sound fr × Rests fr.points s.now r × LineOpens s.now at e }
    ensures { LineSays (frame_rules fr) s.now r at out.old out.new result }
{
    let dif = r.dif;
    let k = r.k;
    let q = r.q;
    match head(s, at, e) {
        None => Err(Fault::of(Reason::NoHead, at)),
        Some(top) => {
            if !fr.passes(top.abscissa, top.unit, index_of(dif, k)) {
                return Err(Fault::of(Reason::WrongHead, at));
            }
            if bare_line(s, top.at) {
                return Err(Fault::of(Reason::BareHead, at));
            }
            let want = wanted(dif, q);
            let n = fr.points;
            values(s, n, out, top.at, k, want)
        }
    }
}

// The end of the body: 12, 13, or all is there.
pub fn finish(points: usize, len: usize, k: usize, dif: bool) -> Result<(), Fault>
    ensures { result ≡ finished points len k dif }
{
    if k < points {
        return Err(Fault::of(Reason::TooFew, len));
    }
    if dif {
        return Err(Fault::of(Reason::NoCheckLine, len));
    }
    Ok(())
}

// One pass over a body: answers, and stores each ordinate that there is room for.
pub fn pass(s: &[u8], fr: Frame, out: &mut [i32]) -> Result<(), Fault>
    requires { Sound fr }
    ensures { PassSays (frame_rules fr) s.now out.old out.new result }
{
    let mut r = Row {
        at: 0,
        k: 0,
        q: 0,
        dif: false,
    };
    loop {
        let at = r.at;
        match row_start(s, at) {
            Start::End => {
                return finish(fr.points, s.len(), r.k, r.dif);
            }
            Start::Bad(j) => {
                return Err(Fault::of(Reason::StrayByte, j));
            }
            Start::Head(j, e) => {
                r = read_line(s, fr, out, r, j, e)?;
            }
        }
    }
}
