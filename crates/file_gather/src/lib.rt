// The seven records of a file (01, "The file"): their texts among the labels.
#![tactic(auto)]

ghost use Rattle.std.specs.Prelude.{◌≡◌, ◌≤◌, ◌<◌, length};
ghost use Rattle.file_spec.specs.Texts.{text_of, gathered_from};
ghost use Rattle.label.specs.Answers.{found_in};
ghost use Rattle.file_gather.specs.Order.{name_at, needed_of};
ghost use Rattle.file_gather.specs.Bounds.{GatheredIn};

use file_spec::Needed;
use label::find_record;
use label_spec::Span;

// The text of one of the seven records that a table needs, counted in the order that 25 lists.
fn record_at(file: &[u8], start: usize, stop: usize, k: usize) -> Option<Span>
    requires { (start ≤ length file.now) × (k < 7) }
    ensures { (result ≡ text_of file.now start stop (name_at k)) × found_in start (length file.now) result }
{
    match k {
        0 => find_record(file, start, stop, b"XFACTOR"),
        1 => find_record(file, start, stop, b"YFACTOR"),
        2 => find_record(file, start, stop, b"FIRSTX"),
        3 => find_record(file, start, stop, b"LASTX"),
        4 => find_record(file, start, stop, b"NPOINTS"),
        5 => find_record(file, start, stop, b"FIRSTY"),
        _ => find_record(file, start, stop, b"XYDATA"),
    }
}

// The seven texts, each under the name of its record.
fn needed(texts: [Span; 7]) -> Needed
    ensures { result ≡ needed_of texts }
{
    Needed {
        xfactor: texts[0],
        yfactor: texts[1],
        firstx: texts[2],
        lastx: texts[3],
        npoints: texts[4],
        firsty: texts[5],
        xydata: texts[6],
    }
}

// The seven records, among the labels from a place on and before END's (25).
pub fn gather(file: &[u8], start: usize, stop: usize) -> Option<Needed>
    requires { start ≤ length file.now }
    ensures { (result ≡ gathered_from file.now start stop) × GatheredIn (length file.now) result }
{
    let mut texts = [Span { from: 0, to: 0 }; 7];
    for k in 0..7 {
        texts[k] = record_at(file, start, stop, k)?;
    }
    Some(needed(texts))
}
