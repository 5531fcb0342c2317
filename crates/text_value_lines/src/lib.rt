// The values of one line (02, T-02: "at most 80 bytes a line, as many values as fit"): stored, or only counted. Inner functions: the line has its head and no value yet.
#![tactic(auto)]

ghost use Rattle.std.specs.Prelude.{◌≡◌, [], ◌∷◌, map, ◌+◌, ◌^◌, ◌≤◌, ◌<◌, length};
ghost use Rattle.table_spec.specs.Frame.{ordinate_of};
ghost use Rattle.table_text.specs.Pieces.{Put};
ghost use Rattle.text_digits.specs.Counts.{counts};
ghost use Rattle.text_digits.specs.Lent.{Tables};
ghost use Rattle.text_marks.specs.Shows.{shown, Based};
ghost use Rattle.text_value_lines.specs.Lines.{Opened, Room, Filled};

use frame::Frame;
use signed::ordinate_at;
use text_marks::{Marks, width_of};
use text_shows::put_value;

// How far the writing has come: points given, the place after the last byte, and the bytes of the line so far. Less than text_openings' State: no value in full hangs on the ordinate before it.
#[derive(Clone, Copy)]
pub struct State {
    pub given: usize,
    pub at: usize,
    pub column: usize,
}

// The values that fit on the line. What is left of the text is lent.
pub fn fill_line(
    t: &[u8; 200],
    d: &[u64; 32],
    m: Marks,
    ys: &[i32],
    out: &mut [u8],
    s: State,
) -> State
    requires { Tables t.now d.now × Based m × Opened (length ys.now) s × Room (shown m) (map ordinate_of ys.now) s (length out.old) }
    ensures { Filled (shown m) (map ordinate_of ys.now) s out.old out.new result }
{
    let line = s.at - s.column;
    let full = line + Frame::LONGEST_LINE;
    let mut at = s.at;
    for i in s.given..ys.len() {
        let u = ordinate_at(ys, i);
        let next = at + width_of(d, m, u);
        if full < next {
            return State {
                given: i,
                at,
                column: at - line,
            };
        }
        put_value(t, m, out, at, next, u);
        at = next;
    }
    State {
        given: ys.len(),
        at,
        column: at - line,
    }
}

// The same with nothing lent: the values are counted. A loop of its own: one loop for both would take a table of digits that it does not read, and claim less plainly what is lent.
pub fn count_line(d: &[u64; 32], m: Marks, ys: &[i32], s: State) -> State
    requires { (d.now ≡ counts) × Opened (length ys.now) s }
    ensures { Filled (shown m) (map ordinate_of ys.now) s [] [] result }
{
    let line = s.at - s.column;
    let full = line + Frame::LONGEST_LINE;
    let mut at = s.at;
    for i in s.given..ys.len() {
        let u = ordinate_at(ys, i);
        let next = at + width_of(d, m, u);
        if full < next {
            return State {
                given: i,
                at,
                column: at - line,
            };
        }
        at = next;
    }
    State {
        given: ys.len(),
        at,
        column: at - line,
    }
}

// CR LF, both of which are lent. The place after it.
pub fn store_end(out: &mut [u8], at: usize) -> usize
    requires { (at + 2 ≤ length out.old) × (at < 2 ^ 61) }
    ensures { Put out.old at out.new result (13 ∷ 10 ∷ []) }
{
    let next = at + 1;
    out[at] = b'\r';
    out[next] = b'\n';
    at + 2
}
