// What the fifteen records of the ion mobility profile say, and the numbers that show where their texts stand (02, T-09; document 001).
#![tactic(auto)]

ghost use Rattle.std.specs.Prelude.{◌≡◌, [], ◌+◌, ◌≤◌, length};
ghost use Rattle.std.proofs.lemmas.List.Edits.{sets};
ghost use Rattle.profile_spec.specs.Wanted.{kth};
ghost use Rattle.profile_spec.specs.Profile.{judged, numbers};
ghost use Rattle.profile_find.specs.Post.{LocatedIn};
ghost use Rattle.profile_records.specs.Post.{judged_in, after, Surveys};

use label_space::past_space;
use profile_find::find_kth;
use profile_spec::{Shown, Unfit};
use profile_words::is_listed;

// What the k-th record says by itself, where its text stands in s: its word is listed, or where its unlisted word stands (31).
fn judge_in(s: &[u8], x: Shown, k: usize) -> Result<(), Unfit>
    requires { (x.from ≤ x.to) × (x.to ≤ length s.now) }
    ensures { result ≡ judged_in s.now x (kth k).words }
{
    let from = x.from;
    let to = x.to;
    let page = x.page;
    let t = &s[from..to];
    if is_listed(t, k) {
        return Ok(());
    }
    let place = from + past_space(t, 0);
    Err(Unfit::Unlisted { page, place })
}

// The same, where its text stands in the file or on the page.
fn judge(file: &[u8], page: &[u8], x: Shown, k: usize) -> Result<(), Unfit>
    requires { LocatedIn file.now page.now (Some x) }
    ensures { result ≡ judged file.now page.now (kth k).words (Some x) (Ok tt) }
{
    let on_page = x.page;
    if on_page {
        judge_in(page, x, k)
    } else {
        judge_in(file, x, k)
    }
}

// What the records before say, if that is a fault; otherwise what the next one says.
fn first_fault(said: Result<(), Unfit>, next: Result<(), Unfit>) -> Result<(), Unfit>
    ensures { result ≡ after said next }
{
    said?;
    next
}

// Stores the three numbers of a record from the entry i on. Numbers and no struct: C lends them so (the header, `lastarunc_read_profile`).
fn put(places: &mut [u64], i: usize, x: Shown)
    requires { i + 3 ≤ length places.old }
    ensures { places.new ≡ sets places.old i (numbers (Some x) []) }
{
    places[i..i + 3].copy_from_slice(&[u64::from(x.page), x.from as u64, x.to as u64]);
}

// What the fifteen records say, in one pass: each is looked for once, and the numbers that show it are stored. One that is absent from both (30) comes before every unlisted word (31).
pub fn survey(
    file: &[u8],
    start: usize,
    stop: usize,
    page: &[u8],
    places: &mut [u64],
) -> Result<(), Unfit>
    requires { (start ≤ length file.now) × (length places.old ≡ 45) }
    ensures { Surveys file.now start stop page.now places.new result }
{
    let mut said = Ok(());
    for k in 0..15 {
        match find_kth(file, start, stop, page, k) {
            None => {
                return Err(Unfit::Lacking);
            }
            Some(x) => {
                said = first_fault(said, judge(file, page, x, k));
                put(places, 3 * k, x);
            }
        }
    }
    said
}
