// Where the texts of the fifteen records of the ion mobility profile stand: in the file, or else on the site's page lent beside it (02, T-09; document 001).
#![tactic(auto)]

ghost use Rattle.std.specs.Prelude.{◌≡◌, ◌<◌, ◌≤◌, length};
ghost use Rattle.label_spec.specs.Names.{norm};
ghost use Rattle.profile_spec.specs.Wanted.{kth};
ghost use Rattle.profile_find.specs.Post.{Locates};

use label::find_record;
use label_page::find_on_page;
use label_spec::Span;
use profile_spec::Shown;

// A text that was found.
fn found(page: bool, from: usize, to: usize) -> Option<Shown>
    ensures { result ≡ Some (record { page = page; from = from; to = to }) }
{
    Some(Shown { page, from, to })
}

// Where the text of the record with a name stands: in the file, among the labels from a place on and before END's, or else on the page.
fn find_named(file: &[u8], start: usize, stop: usize, page: &[u8], name: &[u8]) -> Option<Shown>
    requires { start ≤ length file.now }
    ensures { Locates file.now start stop page.now (norm name.now) result }
{
    match find_record(file, start, stop, name) {
        Some(Span { from, to }) => found(false, from, to),
        None => match find_on_page(page, name) {
            Some(Span { from: a, to: b }) => found(true, a, b),
            None => None,
        },
    }
}

// Where the text of the k-th record of the profile stands, in 001's order of labels.
pub fn find_kth(file: &[u8], start: usize, stop: usize, page: &[u8], k: usize) -> Option<Shown>
    requires { (start ≤ length file.now) × (k < 15) }
    ensures { Locates file.now start stop page.now (kth k).name result }
{
    match k {
        0 => find_named(file, start, stop, page, b"JCAMPDX"),
        1 => find_named(file, start, stop, page, b"DATATYPE"),
        2 => find_named(file, start, stop, page, b"DATACLASS"),
        3 => find_named(file, start, stop, page, b"ORIGIN"),
        4 => find_named(file, start, stop, page, b"OWNER"),
        5 => find_named(file, start, stop, page, b".IMSPRESSURE"),
        6 => find_named(file, start, stop, page, b".CARRIERGAS"),
        7 => find_named(file, start, stop, page, b".DRIFTGAS"),
        8 => find_named(file, start, stop, page, b".ELECTRICFIELD"),
        9 => find_named(file, start, stop, page, b".IONPOLARITY"),
        10 => find_named(file, start, stop, page, b".IONIZATIONMODE"),
        11 => find_named(file, start, stop, page, b".IMSTEMPERATURE"),
        12 => find_named(file, start, stop, page, b".SHUTTEROPENINGTIME"),
        13 => find_named(file, start, stop, page, b"XUNITS"),
        _ => find_named(file, start, stop, page, b"YUNITS"),
    }
}
