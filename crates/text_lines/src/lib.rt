// Groups on lines (01, "The written text"): the lines of a written text, one group after the other. Inner functions: the frame is a sound one, and places are far from the largest number.
#![tactic(auto)]

ghost use Rattle.std.specs.Prelude.{◌+◌, ◌^◌, ◌≤◌, ◌<◌, length};
ghost use Rattle.table_text.specs.Pieces.{head_of, ordinates};
ghost use Rattle.text_tokens.specs.Tokens.{Found};
ghost use Rattle.text_openings.specs.Lines.{after, from, Wrote, PointsLeft};

use frame::Frame;
use text_groups::{find, put_group};
use text_openings::{State, after_group, new_line};
use text_tokens::Group;

// The group g after a state is put on the line. The state after it.
fn fill(ys: &[i32], out: &mut [u8], fr: Frame, s: State, g: Group) -> State
    requires { Found (ordinates ys.now) s.given s.last g × (length ys.now ≤ 65536) × (s.at < 2 ^ 59) × (s.column ≤ s.at) }
    ensures { Wrote (head_of fr) (ordinates ys.now) s.given s.at (after (head_of fr) (ordinates ys.now) s.given s.last s.column) out.old out.new result × (result.at ≤ s.at + 20) }
{
    put_group(out, s.at, g);
    after_group(ys, s, g)
}

// The next group on a new line: as it was found on a check line, found afresh on another.
fn break_line(ys: &[i32], out: &mut [u8], fr: Frame, s: State, g: Group) -> State
    requires { PointsLeft (2 ^ 57) fr ys.now s × Found (ordinates ys.now) s.given s.last g × (80 < s.column + g.width) }
    ensures { Wrote (head_of fr) (ordinates ys.now) s.given s.at (from (head_of fr) (ordinates ys.now) s) out.old out.new result }
{
    let t = new_line(out, fr, s);
    if s.dif {
        return fill(ys, out, fr, t, g);
    }
    let h = find(ys, t.given, 0);
    fill(ys, out, fr, t, h)
}

// One group more, on this line if it fits whole, else on a new one.
pub fn turn(ys: &[i32], out: &mut [u8], fr: Frame, s: State) -> State
    requires { PointsLeft (2 ^ 57) fr ys.now s × (s.column ≤ s.at) }
    ensures { Wrote (head_of fr) (ordinates ys.now) s.given s.at (from (head_of fr) (ordinates ys.now) s) out.old out.new result }
{
    let g = find(ys, s.given, s.last);
    let all = s.column + g.width;
    if all <= Frame::LONGEST_LINE {
        return fill(ys, out, fr, s, g);
    }
    break_line(ys, out, fr, s, g)
}
