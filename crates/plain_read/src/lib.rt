// THE PLAIN ENGINE (02, T-14), to teach from: a line is expanded to a row of ordinates (plain_rows), the row is checked, and the rows are laid one after another. The body is gone over twice: first to
// check all rows, then to lay them, so that a refusal leaves every lent ordinate as it was.
#![tactic(auto)]

ghost use Rattle.std.specs.Prelude.{◌≡◌};
ghost use Rattle.frame.specs.Legal.{Sound};
ghost use Rattle.table_spec.specs.Reading.{read_lines, read, stored};
ghost use Rattle.table_pass.specs.Rows.{frame_rules, PassSays};
ghost use Rattle.table_read.specs.Answers.{told_first, Accepts, TableSays};

use frame::Frame;
use plain_rows::plain_line;
use table_lengths::long_line;
use table_lines::{Start, row_start};
use table_pass::finish;
use table_read::sooner;
use table_values::Row;
use terms::{Fault, Reason, Refusal};
use text::refusal_in;

// The rows of a body, one after another: 3, what each row says, and at the end 12 or 13. Each is laid as far as there is room.
fn rows(s: &[u8], fr: Frame, out: &mut [i32]) -> Result<(), Fault>
    requires { Sound fr }
    ensures { PassSays (frame_rules fr) s.now out.old out.new result }
{
    let mut r = Row {
        at: 0,
        k: 0,
        q: 0,
        dif: false,
    };
    loop {
        let at = r.at;
        match row_start(s, at) {
            Start::End => {
                return finish(fr.points, s.len(), r.k, r.dif);
            }
            Start::Bad(j) => {
                return Err(Fault::of(Reason::StrayByte, j));
            }
            Start::Head(j, e) => {
                r = plain_line(s, fr, out, r, j, e)?;
            }
        }
    }
}

// The rows are checked: nothing lent is written to, since the only room is one ordinate of our own.
fn check_rows(body: &[u8], fr: Frame) -> Result<i32, Fault>
    requires { Sound fr }
    ensures { result ≡ told_first (read_lines (frame_rules fr) body.now) }
{
    let mut one = [0i32; 1];
    rows(body, fr, &mut one)?;
    Ok(one[0])
}

// A line over 80 bytes is refused before it is expanded (02, T-06): 16, unless a fault stands before that line.
fn check_body(body: &[u8], fr: Frame) -> Result<i32, Fault>
    requires { Sound fr }
    ensures { result ≡ told_first (read (frame_rules fr) body.now) }
{
    let long = long_line(body);
    let found = check_rows(body, fr);
    sooner(long, found)
}

// The rows, which were checked and found right, are laid.
fn lay_rows(body: &[u8], fr: Frame, out: &mut [i32])
    requires { Sound fr × Accepts (read (frame_rules fr) body.now) }
    ensures { out.new ≡ stored out.old (read (frame_rules fr) body.now) }
{
    let _ = rows(body, fr, out);
}

// Reads a table in the plain way: any F, L and N, any body, any slice. The same answer, and the same entries of the slice, as `table_read::read_table` gives: `engines_agree`.
pub fn read_plain(
    first: i64,
    last: i64,
    points: usize,
    body: &[u8],
    out: &mut [i32],
) -> Result<usize, Refusal>
    ensures { TableSays first last points body.now out.old out.new result }
{
    if body.len() > Frame::LONGEST_BODY {
        return Err(refusal_in(body, Reason::OutsideLimits.number(), 0));
    }
    match Frame::new(first, last, points) {
        None => Err(refusal_in(body, Reason::OutsideLimits.number(), 0)),
        Some(fr) => {
            if out.len() < points {
                return Err(refusal_in(body, Reason::LittleRoom.number(), 0));
            }
            match check_body(body, fr) {
                Err(f) => Err(refusal_in(body, f.number, f.place)),
                Ok(_) => {
                    lay_rows(body, fr, out);
                    Ok(points)
                }
            }
        }
    }
}
