// Groups of equal differences counted point by point, without a jump on whether a difference is the one before it: where differences repeat, nothing foretells which do. Inner functions.
#![tactic(auto)]

ghost use Rattle.std.specs.Prelude.{◌≡◌, true, ◌+◌, ◌^◌, ◌≤◌, ◌<◌, length};
ghost use Rattle.terms.specs.Logic.{pick};
ghost use Rattle.table_spec.specs.Frame.{apart};
ghost use Rattle.table_spec.specs.Groups.{dup_text};
ghost use Rattle.table_text.specs.Digits.{further};
ghost use Rattle.table_text.specs.Pieces.{ordinates};
ghost use Rattle.text_openings.specs.Lines.{Countable, Counted};
ghost use Rattle.text_points.specs.Points.{Opens};

use frame::{Frame, distance};
use signed::ordinate_at;
use table_text::digits::further_digits;
use text_differences::state_after;
use text_openings::State;

// The bytes of the DIF for y after p.
pub fn dif_width(p: u64, y: u64) -> usize
    requires { (p < 4294967296) × (y < 4294967296) }
    ensures { (result ≡ 1 + further 9 (apart p y)) × (result ≤ 10) }
{
    1 + further_digits(distance(p, y))
}

// The bytes that one point more adds to a group that has `more` after its first: its DUP, or the DUP's second digit. Where it would be the third, more than a line has.
fn copy_width(more: usize) -> usize
    ensures { (result ≤ 81) × (result ≤ 80 → length (dup_text (more + 1)) ≡ length (dup_text more) + result) }
{
    if 97 < more {
        return 81;
    }
    usize::from(more == 0 || more == 8)
}

// One of two numbers: a choice that the compiler makes no jump of.
fn one_of<T: Copy>(yes: bool, a: T, b: T) -> T
    ensures { result ≡ pick yes a b }
{
    if yes { a } else { b }
}

// The groups from the next point on, the ordinate `first`, whose DIF alone ends at the column `wide`, as long as they fit. The state before the last of them, which may go on.
fn count_points(ys: &[i32], s: State, first: u64, wide: usize) -> State
    requires { Countable (2 ^ 59) ys.now s × (s.given < length ys.now) × (s.dif ≡ true) × (0 < s.last) × Opens (ordinates ys.now) s first wide }
    ensures { Counted (ordinates ys.now) s result × (result.given < length ys.now) }
{
    let mut p = s.last;
    let mut y = first;
    let mut before = p;
    let mut start = s.column;
    let mut column = wide;
    let mut more = 0;
    for next in s.given + 1..ys.len() {
        let z = ordinate_at(ys, next);
        if z == 0 {
            return state_after(s, next - 1 - more, before, start);
        }
        let again = p + z == y + y;
        let width = dif_width(y, z);
        let copy = copy_width(more);
        let wider = one_of(again, copy, width);
        before = one_of(again, before, y);
        start = one_of(again, start, column);
        more = one_of(again, more + 1, 0);
        column += wider;
        if column > Frame::LONGEST_LINE {
            return state_after(s, next - more, before, start);
        }
        p = y;
        y = z;
    }
    state_after(s, ys.len() - 1 - more, before, start)
}

// The same from a state after differences that stand alone: nothing is done where the next one stands alone too.
pub fn count_repeated(ys: &[i32], s: State) -> State
    requires { Countable (2 ^ 59) ys.now s × (s.given < length ys.now) × (s.dif ≡ true) × (0 < s.last) }
    ensures { Counted (ordinates ys.now) s result × (result.given < length ys.now) }
{
    let p = s.last;
    let next = s.given + 1;
    if next >= ys.len() {
        return s;
    }
    let y = ordinate_at(ys, s.given);
    let z = ordinate_at(ys, next);
    if y == 0 || p + z != y + y {
        return s;
    }
    let wide = s.column + dif_width(p, y);
    if wide > Frame::LONGEST_LINE {
        return s;
    }
    count_points(ys, s, y, wide)
}
