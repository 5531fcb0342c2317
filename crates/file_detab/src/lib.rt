// The converter of old files (02, T-13): in the lent bytes, each tab in the body of the table, outside comments, becomes a space, and every other byte stays.
#![tactic(auto)]

ghost use Rattle.std.specs.Prelude.{◌≡◌, length};
ghost use Rattle.file_gather.specs.Bounds.{AllWithin};
ghost use Rattle.file_spec.specs.Texts.{text_in, listed_in};
ghost use Rattle.file_spec.specs.Places.{found_at, found_body};
ghost use Rattle.file_detab.specs.Answers.{FoundWithin, FileDetabs};

use file_gather::gather;
use file_marks::list_in;
use file_spec::Needed;
use label_spec::{Places, Span};

// The body, from the line after XYDATA's list on, if that is the one asked for.
fn body_at(file: &[u8], x: Needed) -> Option<Span>
    requires { AllWithin (length file.now) x }
    ensures { (result ≡ found_at x (listed_in (text_in file.now x.xydata))) × FoundWithin (length file.now) result }
{
    let s = x.xydata;
    let start = list_in(file, s)?;
    Some(Span {
        from: s.from + start,
        to: s.to,
    })
}

// Where the body of a file's table stands, as `file_check::check_file` finds it; the numbers of the file are not looked at.
pub fn find_body(file: &[u8]) -> Option<Span>
    ensures { (result ≡ found_body file.now) × FoundWithin (length file.now) result }
{
    match label_walk::labels(file) {
        Err(_) => None,
        Ok(Places { title: _, eq, end }) => {
            let start = eq + 1;
            let x = gather(file, start, end)?;
            body_at(file, x)
        }
    }
}

// Converts an old file in place: any bytes. Answers whether it has a body to be converted; without one it is left as it is.
pub fn detab_file(file: &mut [u8]) -> bool
    ensures { FileDetabs file.old file.new result }
{
    match find_body(file) {
        None => false,
        Some(b) => {
            let from = b.from;
            let to = b.to;
            detab::detab(&mut file[from..to]);
            true
        }
    }
}
