// How a line begins (01, "The written text"): a head, or a check line's head and value; and how far the writing has come after a group.
// Inner functions: the frame is a sound one, and places are far from the largest number.
#![tactic(auto)]

ghost use Rattle.std.specs.Prelude.{◌≡◌, ◌+◌, ◌^◌, ◌≤◌, ◌<◌, length};
ghost use Rattle.table_spec.specs.declared.Style.TheVariants.{Difdup};
ghost use Rattle.table_spec.specs.Writing.{check};
ghost use Rattle.table_spec.specs.Groups.{sqz_text};
ghost use Rattle.frame.specs.Legal.{Sound};
ghost use Rattle.table_text.specs.Pieces.{Put, head_of, ordinates};
ghost use Rattle.text_tokens.specs.Tokens.{Found};
ghost use Rattle.text_openings.specs.Lines.{opening, Started, NewLine, group_state};

use frame::Frame;
use signed::{ZERO_ORDINATE, ordinate_at};
use table_text::digits::{SQZ, SQZ_MINUS, further_digits, put_end, put_number};
use text_heads::put_head;
use text_tokens::Group;

// How far the writing has come: points given, the place after the last byte, the bytes of the line so far, the last ordinate, and whether its form is DIF.
#[derive(Clone, Copy)]
pub struct State {
    pub given: usize,
    pub at: usize,
    pub column: usize,
    pub last: u64,
    pub dif: bool,
}

// An ordinate in SQZ form. The place after it.
fn put_own(out: &mut [u8], at: usize, u: u64) -> usize
    requires { (u < 4294967296) × (at < 2 ^ 60) }
    ensures { Put out.old at out.new result (sqz_text u) × (result ≤ at + 10) }
{
    if ZERO_ORDINATE <= u {
        let v = u - ZERO_ORDINATE;
        let n = further_digits(v);
        return put_number(out, at, SQZ, v, n);
    }
    let w = ZERO_ORDINATE - u;
    let m = further_digits(w);
    put_number(out, at, SQZ_MINUS, w, m)
}

// The head and the first value of a check line, after i points, the last of them p. The place after them.
pub fn put_check(out: &mut [u8], at: usize, fr: Frame, i: usize, p: u64) -> usize
    requires { Sound fr × (0 < i) × (i ≤ fr.points) × (p < 4294967296) × (at < 2 ^ 58) }
    ensures { Put out.old at out.new result (check Difdup (head_of fr) i p) × (result ≤ at + 25) }
{
    let before = i - 1;
    let h = put_head(out, at, fr, before);
    put_own(out, h, p)
}

// The start of a new line: a check line's, or the head of the next point. The place after it.
fn put_opening(out: &mut [u8], at: usize, fr: Frame, s: State) -> usize
    requires { Sound fr × Started s × (s.given < fr.points) × (at < 2 ^ 58) }
    ensures { Put out.old at out.new result (opening (head_of fr) s.dif s.given s.last) × (result ≤ at + 25) }
{
    let i = s.given;
    let p = s.last;
    if s.dif {
        return put_check(out, at, fr, i, p);
    }
    put_head(out, at, fr, i)
}

// A new line: CR LF and its start. The state after them, in which the next group is to be found after a check line's value, else after none.
pub fn new_line(out: &mut [u8], fr: Frame, s: State) -> State
    requires { Sound fr × Started s × (s.given < fr.points) × (s.at < 2 ^ 57) }
    ensures { NewLine (head_of fr) s out.old out.new result }
{
    let a = put_end(out, s.at);
    let b = put_opening(out, a, fr, s);
    State {
        given: s.given,
        at: b,
        column: b - a,
        last: if s.dif { s.last } else { 0 },
        dif: s.dif,
    }
}

// The state after the group g, whether its bytes are stored or only counted.
pub fn after_group(ys: &[i32], s: State, g: Group) -> State
    requires { Found (ordinates ys.now) s.given s.last g × (length ys.now ≤ 65536) × (s.column ≤ s.at) × (s.at < 2 ^ 59) }
    ensures { (result ≡ group_state (ordinates ys.now) s g) × (result.last < 4294967296) }
{
    let index = s.given + g.more;
    State {
        given: index + 1,
        at: s.at + g.width,
        column: s.column + g.width,
        last: ordinate_at(ys, index),
        dif: g.dif,
    }
}
