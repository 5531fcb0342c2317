// How long a file is that can be written (02, T-10). An inner function: what is given was taken by the tests before.
#![tactic(auto)]

ghost use Rattle.std.specs.Prelude.{◌≡◌, ◌≤◌, length};
ghost use Rattle.table_spec.specs.Writing.{wrote};
ghost use Rattle.file_lines.specs.Lines.{AllWritable};
ghost use Rattle.file_plan.specs.Stages.{laid_out, body_of, Framed};
ghost use Rattle.file_lay.specs.Answers.{told_file_lem};

use file_lay::{END_LINE, heading_length};
use file_spec::{Exactness, Numbers};
use file_write_spec::FileLength;
use table_spec::Style;
use table_write::text_length;
use terms::Fault;

// The length of the file that `lay` would lay: nothing is written.
pub fn measure(
    title: &[u8],
    n: Numbers,
    first: i64,
    last: i64,
    exact: Exactness,
    ordinates: &[i32],
) -> Result<FileLength, Fault>
    requires { (length title.now ≤ 72) × AllWritable n × Framed first last n.npoints ordinates.now }
    ensures { result ≡ told_file_lem exact (wrote (laid_out title.now n (body_of first last n.npoints ordinates.now))) }
{
    let head = heading_length(title, n);
    let points = n.npoints as usize;
    let body = text_length(Style::Difdup, first, last, points, ordinates)?;
    Ok(FileLength {
        length: head + body + END_LINE,
        exact,
    })
}
