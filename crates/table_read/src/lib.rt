// Reading a table (01, "Spelling of a body", "Refusal numbers"). The body is gone over twice by one pass: first to answer, with room for the first ordinate only, then to store. So a
// refusal leaves every lent ordinate as it was.
#![tactic(auto)]

ghost use Rattle.std.specs.Prelude.{◌≡◌, ◌<◌, length};
ghost use Rattle.frame.specs.Legal.{Sound};
ghost use Rattle.table_spec.specs.Reading.{read_lines, read, read_table, stored};
ghost use Rattle.table_pass.specs.Rows.{frame_rules};
ghost use Rattle.table_read.specs.Answers.{told_first, sooner_of, Accepts, TableSays};

use frame::Frame;
use table_lengths::long_line;
use table_pass::pass;
use terms::{Fault, Reason, Refusal};
use text::refusal_in;

// The pass that answers. It has room for the first ordinate, which refusal 29 asks for.
fn check_lines(body: &[u8], fr: Frame) -> Result<i32, Fault>
    requires { Sound fr }
    ensures { result ≡ told_first (read_lines (frame_rules fr) body.now) }
{
    let mut one = [0i32; 1];
    pass(body, fr, &mut one)?;
    Ok(one[0])
}

// 16, where a long line begins at what was found otherwise or before it (02, T-06).
pub fn sooner(long: Option<usize>, found: Result<i32, Fault>) -> Result<i32, Fault>
    ensures { result ≡ sooner_of long found }
{
    match long {
        None => found,
        Some(a) => match found {
            Ok(_) => Err(Fault::of(Reason::LongLine, a)),
            Err(f) => {
                if f.place < a {
                    return Err(f);
                }
                Err(Fault::of(Reason::LongLine, a))
            }
        },
    }
}

// What a body says, its lines' lengths too.
fn check_body(body: &[u8], fr: Frame) -> Result<i32, Fault>
    requires { Sound fr }
    ensures { result ≡ told_first (read (frame_rules fr) body.now) }
{
    let long = long_line(body);
    let found = check_lines(body, fr);
    sooner(long, found)
}

// The pass that stores.
fn store_body(body: &[u8], fr: Frame, out: &mut [i32])
    requires { Sound fr × Accepts (read (frame_rules fr) body.now) }
    ensures { out.new ≡ stored out.old (read (frame_rules fr) body.now) }
{
    let _ = pass(body, fr, out);
}

// What a body says in a frame, with room for so many ordinates: its first ordinate, or a refusal (01, "Refusal numbers" 1 to 13; 02, T-06, 16). Nothing lent is written to.
pub fn check_table(
    first: i64,
    last: i64,
    points: usize,
    body: &[u8],
    room: usize,
) -> Result<i32, Fault>
    ensures { result ≡ told_first (read_table first last points body.now room) }
{
    if body.len() > Frame::LONGEST_BODY {
        return Err(Fault::of(Reason::OutsideLimits, 0));
    }
    match Frame::new(first, last, points) {
        None => Err(Fault::of(Reason::OutsideLimits, 0)),
        Some(fr) => {
            if room < points {
                return Err(Fault::of(Reason::LittleRoom, 0));
            }
            check_body(body, fr)
        }
    }
}

// Stores the ordinates of a table that was checked and found right.
pub fn store_table(first: i64, last: i64, points: usize, body: &[u8], out: &mut [i32])
    requires { Accepts (read_table first last points body.now (length out.old)) }
    ensures { out.new ≡ stored out.old (read_table first last points body.now (length out.old)) }
{
    match Frame::new(first, last, points) {
        None => {}
        Some(fr) => {
            store_body(body, fr, out);
        }
    }
}

// Reads a table: any F, L and N, any body, any slice. Accepted: the first N entries are the ordinates, -2,147,483,648 for a missing one, and those past N are unaltered. Refused: all are unaltered.
pub fn read_table(
    first: i64,
    last: i64,
    points: usize,
    body: &[u8],
    out: &mut [i32],
) -> Result<usize, Refusal>
    ensures { TableSays first last points body.now out.old out.new result }
{
    match check_table(first, last, points, body, out.len()) {
        Err(f) => Err(refusal_in(body, f.number, f.place)),
        Ok(_) => {
            store_table(first, last, points, body, out);
            Ok(points)
        }
    }
}
