// The length of a written text, without writing it: groups that are only counted. Inner functions: the frame is a sound one, and the ordinates are its points.
#![tactic(auto)]

ghost use Rattle.std.specs.Prelude.{◌≡◌, true, ◌+◌, ◌^◌, ◌≤◌, ◌<◌, length};
ghost use Rattle.table_spec.specs.declared.Style.TheVariants.{Difdup};
ghost use Rattle.table_spec.specs.Writing.{lines_of};
ghost use Rattle.text_tokens.specs.Tokens.{lone};
ghost use Rattle.frame.specs.Legal.{Sound};
ghost use Rattle.table_text.specs.Pieces.{head_of, ordinates};
ghost use Rattle.text_openings.specs.Lines.{from, PointsLeft, Countable, Wrote, Counted, Full};

use frame::Frame;
use signed::ordinate_at;
use text_differences::state_after;
use text_ends::{begin, finish};
use text_groups::find;
use text_openings::{State, after_group, new_line};
use text_points::{count_repeated, dif_width};

// The bytes of the DIF for y after p, if it stands alone before z; else more than a line has: y is missing, or z may have the same DIF.
fn lone_width(p: u64, y: u64, z: u64) -> usize
    requires { (p < 4294967296) × (y < 4294967296) × (z < 4294967296) }
    ensures { (result ≡ lone p y z) × (result ≤ 81) }
{
    if y == 0 || p + z == y + y {
        return 81;
    }
    dif_width(p, y)
}

// Points in DIF form without DUP, after one in DIF form, as long as they fit on the line: most points of most tables.
fn lone_differences(ys: &[i32], s: State) -> State
    requires { Countable (2 ^ 58) ys.now s × (s.given < length ys.now) × (s.dif ≡ true) × (0 < s.last) }
    ensures { Counted (ordinates ys.now) s result × (result.given < length ys.now) × (result.dif ≡ true) × (0 < result.last) }
{
    let mut p = s.last;
    let mut column = s.column;
    let mut y = ordinate_at(ys, s.given);
    for next in s.given + 1..ys.len() {
        let z = ordinate_at(ys, next);
        let all = column + lone_width(p, y, z);
        if all > Frame::LONGEST_LINE {
            return state_after(s, next - 1, p, column);
        }
        p = y;
        column = all;
        y = z;
    }
    state_after(s, ys.len() - 1, p, column)
}

// The same from any state, and then the groups that repeat a difference, where one does.
fn count_differences(ys: &[i32], s: State) -> State
    requires { Countable (2 ^ 58) ys.now s × (s.given < length ys.now) }
    ensures { Counted (ordinates ys.now) s result × (result.given < length ys.now) }
{
    if s.last == 0 || !s.dif {
        return s;
    }
    let t = lone_differences(ys, s);
    count_repeated(ys, t)
}

// The groups that fit on the line. A loop by hand: a turn takes as many points as differences go on, and a group.
fn count_line(ys: &[i32], s: State) -> State
    requires { Countable (2 ^ 57) ys.now s × (s.given ≤ length ys.now) }
    ensures { Counted (ordinates ys.now) s result × Full (ordinates ys.now) s result }
{
    let mut r = s;
    while r.given < ys.len() {
        let t = count_differences(ys, r);
        let g = find(ys, t.given, t.last);
        if t.column + g.width > Frame::LONGEST_LINE {
            return t;
        }
        r = after_group(ys, t, g);
    }
    r
}

// The groups that fit on the line, and the start of a new line if points are left.
fn count_turn(ys: &[i32], none: &mut [u8], fr: Frame, s: State) -> State
    requires { PointsLeft (2 ^ 56) fr ys.now s × (s.column ≤ s.at) × (s.column ≤ 60) × (length none.old ≡ 0) }
    ensures { Wrote (head_of fr) (ordinates ys.now) s.given s.at (from (head_of fr) (ordinates ys.now) s) none.old none.new result
        × (result.given < length ys.now → result.column ≤ 60) }
{
    let t = count_line(ys, s);
    if t.given >= ys.len() {
        return t;
    }
    new_line(none, fr, t)
}

// The text's length: line by line with no byte lent, the groups of a line only counted. A loop by hand: a turn moves the state, which counts the points given.
pub fn measure(ys: &[i32], none: &mut [u8], fr: Frame) -> usize
    requires { Sound fr × (length ys.now ≡ fr.points) × (length none.old ≡ 0) }
    ensures { result ≡ length (lines_of Difdup (head_of fr) (ordinates ys.now)) }
{
    let mut s = begin(none, fr);
    while s.given < ys.len() {
        s = count_turn(ys, none, fr, s);
    }
    finish(none, fr, s)
}
