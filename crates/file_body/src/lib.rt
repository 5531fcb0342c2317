// Checking the body of a file's table (01, "The file"), in the frame that was found, and FIRSTY, with nothing to write to.
#![tactic(auto)]

ghost use Rattle.std.specs.Prelude.{◌-◌, ◌≤◌, length};
ghost use Rattle.label_spec.specs.File.{longest_file};
ghost use Rattle.file_spec.specs.File.{by_table};
ghost use Rattle.figure.specs.Carried.{Carried};
ghost use Rattle.file_gather.specs.Bounds.{AllWithin};
ghost use Rattle.file_records.specs.Bounds.{AllSmall};
ghost use Rattle.file_spec.specs.Places.{body_from};
ghost use Rattle.file_body.specs.Checks.{StageChecks};

use figure::{agree, exact_with, ratio_of};
use file_marks::mark_in;
use file_spec::{FileTable, Needed, Numbers};
use file_tabled::{TablePlace, moved_in};
use label_spec::Span;
use terms::{Fault, Reason};

// The table, in the frame that was found: 1 to 13 and 16, then 29.
pub fn check_body(
    file: &[u8],
    room: usize,
    x: Needed,
    n: Numbers,
    start: usize,
    first: i64,
    last: i64,
    first_exact: bool,
    last_exact: bool,
) -> Result<TablePlace, Fault>
    requires { AllWithin (length file.now) x × AllSmall n × (start ≤ x.xydata.to - x.xydata.from) × (length file.now ≤ longest_file) × Carried n first_exact last_exact }
    ensures { StageChecks file.now room (body_from x start) (by_table file.now room x n start first last) result }
{
    let s = x.xydata;
    let from = s.from;
    let to = s.to;
    let place = from + start;
    let body = &file[place..to];
    let points = n.npoints as usize;
    match table_read::check_table(first, last, points, body, room) {
        Err(fault) => Err(moved_in(fault, place)),
        Ok(y) => {
            let firsty = n.firsty;
            let yfactor = n.yfactor;
            let q = ratio_of(0, firsty, yfactor);
            let rounded = q.rounded;
            if !agree(y, rounded) {
                let t = x.firsty;
                return Err(Fault::of(Reason::WrongFirst, mark_in(file, t)));
            }
            let exact = exact_with(first_exact, last_exact, q.exact, y);
            Ok(TablePlace {
                table: FileTable {
                    points,
                    first,
                    last,
                    exact,
                },
                body: Span { from: place, to },
            })
        }
    }
}
