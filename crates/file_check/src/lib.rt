// Checking a file (01, "The file"): labels, the seven records, their numbers, the table, and FIRSTY, with nothing to write to; `file` then stores the ordinates.
#![tactic(auto)]

ghost use Rattle.std.specs.Prelude.{◌-◌, ◌≤◌, length};
ghost use Rattle.label_spec.specs.File.{longest_file};
ghost use Rattle.file_spec.specs.Texts.{gathered_from, text_in, listed_in};
ghost use Rattle.file_spec.specs.Figures.{figures_of, ratio};
ghost use Rattle.file_spec.specs.File.{by_abscissas, by_figures, by_records, read_file};
ghost use Rattle.file_gather.specs.Bounds.{AllWithin};
ghost use Rattle.file_records.specs.Bounds.{AllSmall};
ghost use Rattle.file_spec.specs.Places.{body_from, body_at, body_in, body_of};
ghost use Rattle.file_body.specs.Checks.{StageChecks};

use figure::{ratio_of, whole_of};
use file_body::check_body;
use file_gather::gather;
use file_marks::{list_in, mark_in};
use file_records::figures;
use file_spec::{Needed, Numbers};
use file_tabled::TablePlace;
use terms::{Fault, Reason};

// F and L (28), then the table.
fn check_abscissas(
    file: &[u8],
    room: usize,
    x: Needed,
    n: Numbers,
    start: usize,
) -> Result<TablePlace, Fault>
    requires { AllWithin (length file.now) x × AllSmall n × (start ≤ x.xydata.to - x.xydata.from) × (length file.now ≤ longest_file) }
    ensures { StageChecks file.now room (body_from x start) (by_abscissas file.now room x n start (ratio 3 n.firstx n.xfactor).rounded) result }
{
    let firstx = n.firstx;
    let lastx = n.lastx;
    let xfactor = n.xfactor;
    let f = ratio_of(3, firstx, xfactor);
    let Some(p) = f.rounded else {
        return Err(Fault::of(Reason::FarAbscissa, mark_in(file, x.firstx)));
    };
    let l = ratio_of(3, lastx, xfactor);
    let Some(q) = l.rounded else {
        return Err(Fault::of(Reason::FarAbscissa, mark_in(file, x.lastx)));
    };
    let first = whole_of(p.minus, p.size);
    let last = whole_of(q.minus, q.size);
    check_body(file, room, x, n, start, first, last, f.exact, l.exact)
}

// The numbers (26), the list (27), then the rest.
fn check_records(file: &[u8], room: usize, x: Needed) -> Result<TablePlace, Fault>
    requires { AllWithin (length file.now) x × (length file.now ≤ longest_file) }
    ensures { StageChecks file.now room (body_at x (listed_in (text_in file.now x.xydata))) (by_figures file.now room x (figures_of file.now x)) result }
{
    match figures(file, x) {
        Err(a) => Err(Fault::of(Reason::BadNumber, a)),
        Ok(n) => {
            let s = x.xydata;
            match list_in(file, s) {
                None => Err(Fault::of(Reason::OtherForm, mark_in(file, s))),
                Some(start) => check_abscissas(file, room, x, n, start),
            }
        }
    }
}

// The records from the place `start`, after TITLE's `=`, up to END's `##` (25), then the rest.
pub fn check_part(file: &[u8], room: usize, start: usize, end: usize) -> Result<TablePlace, Fault>
    requires { (start ≤ length file.now) × (length file.now ≤ longest_file) }
    ensures { StageChecks file.now room (body_in file.now (gathered_from file.now start end))
        (by_records file.now room end (gathered_from file.now start end)) result }
{
    match gather(file, start, end) {
        None => Err(Fault::of(Reason::NoRecord, end)),
        Some(x) => check_records(file, room, x),
    }
}

// What a file says, with room for so many ordinates: its table and where its body stands, or a fault. Nothing lent is written to.
pub fn check_file(file: &[u8], room: usize) -> Result<TablePlace, Fault>
    ensures { StageChecks file.now room (body_of file.now) (read_file file.now room) result }
{
    let places = label_walk::labels(file)?;
    check_part(file, room, places.eq + 1, places.end)
}
