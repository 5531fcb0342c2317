// Runs of ordinates of their own (01, "Values": AFFN, PAC and SQZ), by a loop that asks for nothing else and leaves the rest to the values of a line.
#![tactic(auto)]

ghost use Rattle.std.specs.Prelude.{◌≡◌};
ghost use Rattle.table_value.specs.States.{Sits, Went};
ghost use Rattle.table_owns.specs.Ways.{reached};

use alphabet::standing_in;
use signed::ZERO_ORDINATE;
use table_leads::{falls, own_number};
use table_lines::blanks;
use table_ordinates::{put, turned};
use table_value::Cur;

// So many bytes hold a sign, ten digits and what stands after them.
const ROOM: usize = 12;

// The largest size of an ordinate.
const LARGEST: u64 = 2147483647;

// The state after a run that began in the state c and went so far.
fn after_owns(c: Cur, at: usize, k: usize, q: u64) -> Cur
    ensures { result ≡ reached c at k q }
{
    if k == c.k {
        return c;
    }
    Cur {
        at,
        k,
        q,
        want: c.want,
        step: 0,
        form: 2,
    }
}

// As many ordinates of their own as stand here one after the other, blanks between them. It stops before anything else.
pub fn owns(s: &[u8], points: usize, out: &mut [i32], c: Cur) -> Cur
    requires { Sits points s.now c }
    ensures { Went points s.now c result out.old out.new }
{
    if c.want != 0 {
        return c;
    }
    if s.len() < ROOM {
        return c;
    }
    let limit = s.len() - ROOM;
    let mut at = c.at;
    let mut k = c.k;
    let mut q = c.q;
    loop {
        let j = blanks(s, at);
        if k >= points || j > limit {
            return after_owns(c, at, k, q);
        }
        let b = standing_in(s, j);
        let r = own_number(s, j, b);
        if r.v > LARGEST {
            return after_owns(c, at, k, q);
        }
        q = turned(ZERO_ORDINATE, falls(b), r.v);
        put(out, k, q);
        k += 1;
        at = r.at;
    }
}
