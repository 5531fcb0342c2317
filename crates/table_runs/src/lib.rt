// Runs of short differences, and of DUPs of them (01, "Values", "Meaning"): what most of a table is, by a loop that asks for nothing else and leaves the rest to the values of a line.
#![tactic(auto)]

ghost use Rattle.std.specs.Prelude.{◌≡◌, ◌+◌, ◌≤◌, length};
ghost use Rattle.table_steps.specs.Ways.{reached};
ghost use Rattle.table_runs.specs.Roomy.{Roomy};
ghost use Rattle.table_value.specs.States.{Sits, Went};

use alphabet::{DIF, DIF_MINUS};
use table_steps::{Way, apart, onward};
use table_value::Cur;

// So many bytes hold a difference of four digits; one more shows that it ends there.
const ROOM: usize = 4;

// So many points are taken in one run, so that none is out of range: each difference is below ten thousand.
const MOST: usize = 1000;

// So far from the least and the largest ordinate a run begins.
const FAR: u64 = 10000000;

// FAR below the first number past the ordinates, 2^32.
const HIGH: u64 = 4284967296;

// Before which place a run takes values that begins at a place: each takes a byte, so that this one bound serves for the text, for the points that are left and for the range.
fn run_end(past: usize, at: usize, left: usize) -> usize
    requires { at ≤ past }
    ensures { (result ≤ past) × (result ≤ at + left) × (result ≤ at + 1000) }
{
    let most = if left > MOST { MOST } else { left };
    if past - at < most {
        return past;
    }
    at + most
}

// May a run begin here: is there room for a short difference, and an ordinate far from both ends?
fn roomy(s: &[u8], c: Cur) -> bool
    requires { c.at ≤ length s.now }
    ensures { Roomy s.now c result }
{
    if s.len() - c.at < ROOM {
        return false;
    }
    if c.q < FAR {
        return false;
    }
    c.q <= HIGH
}

// The state after a run that began in the state c and went so far.
fn after_run(c: Cur, w: Way) -> Cur
    ensures { result ≡ reached c w }
{
    let at = w.at;
    let k = w.k;
    let before = w.before;
    let q = w.q;
    if k == c.k {
        return c;
    }
    let want = c.want;
    if before == 0 {
        return Cur {
            at,
            k,
            q,
            want,
            step: 0,
            form: 1,
        };
    }
    let step = apart(before, q);
    let form = if q < before { DIF_MINUS } else { DIF };
    Cur {
        at,
        k,
        q,
        want,
        step,
        form,
    }
}

// THE HOT LOOP. As many short differences, and DUPs of them, as stand here one after the other. It stops before anything else.
pub fn differences(s: &[u8], points: usize, out: &mut [i32], c: Cur) -> Cur
    requires { (points ≤ 65536) × Sits points s.now c }
    ensures { Went points s.now c result out.old out.new }
{
    if !roomy(s, c) {
        return c;
    }
    let past = s.len() - ROOM;
    let mut w = Way {
        at: c.at,
        k: c.k,
        before: 0,
        q: c.q,
        end: run_end(past, c.at, points - c.k),
    };
    while w.at < w.end {
        let at = w.at;
        w = onward(s, out, w);
        if w.at == at {
            break;
        }
    }
    after_run(c, w)
}
