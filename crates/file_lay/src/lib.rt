// A file that can be written, laid into the lent bytes (02, T-04). Inner functions: what is given was taken by the tests before.
#![tactic(auto)]

ghost use Rattle.std.specs.Prelude.{◌≡◌, ◌≤◌, length};
ghost use Rattle.table_spec.specs.Writing.{fitted};
ghost use Rattle.file_write_spec.specs.Records.{entries_text};
ghost use Rattle.file_lines.specs.Lines.{AllWritable, heading_of};
ghost use Rattle.file_plan.specs.Stages.{laid_out, body_of, Framed};
ghost use Rattle.file_lay.specs.Answers.{FileTells};

use file_lines::{put_heading, put_line};
use file_spec::{Exactness, Numbers};
use file_write_spec::FileLength;
use table_write::write_table;
use terms::{Fault, Reason};

// How many bytes END's record has, with its line end.
pub const END_LINE: usize = 8;

// How long all that stands before the body is: nothing is stored.
pub fn heading_length(title: &[u8], n: Numbers) -> usize
    requires { (length title.now ≤ 72) × AllWritable n }
    ensures { (result ≡ length (entries_text (heading_of title.now n))) × (result ≤ 960) }
{
    put_heading(&mut [], title, n)
}

// The file of a table that can be written: the body first, behind the room of the heading, so that nothing is altered where it does not fit (15).
pub fn lay(
    title: &[u8],
    n: Numbers,
    first: i64,
    last: i64,
    exact: Exactness,
    ordinates: &[i32],
    text: &mut [u8],
) -> Result<FileLength, Fault>
    requires { (length title.now ≤ 72) × AllWritable n × Framed first last n.npoints ordinates.now }
    ensures { FileTells exact (fitted (length text.old) (laid_out title.now n (body_of first last n.npoints ordinates.now)))
        text.old text.new result }
{
    let head = heading_length(title, n);
    let len = text.len();
    if len < head + END_LINE {
        return Err(Fault::of(Reason::NoFit, 0));
    }
    let stop = len - END_LINE;
    let points = n.npoints as usize;
    match write_table(first, last, points, ordinates, &mut text[head..stop]) {
        Err(_) => Err(Fault::of(Reason::NoFit, 0)),
        Ok(k) => {
            put_heading(text, title, n);
            let at = head + k;
            let length = put_line(text, at, b"END", b"");
            Ok(FileLength { length, exact })
        }
    }
}
