// The labels of a file (01, The file): TITLE first, then one walk up to END.
#![tactic(auto)]

ghost use Rattle.std.specs.Prelude.{◌≡◌, false, [], ◌≤◌, length};
ghost use Rattle.label_spec.specs.Labels.{from};
ghost use Rattle.label_spec.specs.File.{judged, labelled};
ghost use Rattle.label_judged.specs.Answers.{WalkedIn};
ghost use Rattle.label_walk.specs.Answers.{LabelledIn};

use label_judged::{Judged, is_same, next_judged};
use label_lines::next_mark;
use label_names::first_of;
use label_spec::{Edges, Places};
use label_title::open_title;
use terms::{Fault, Reason};

// The most bytes of a file.
const LONGEST_FILE: usize = 1048576;

// The walk over the labels of a part of a file, from after TITLE's `=`: up to END, or to the first of 20, 22, 23, 24.
// Each label is compared with every label before it: two nested scans, left from inside at the first equal name (23).
pub fn walk(part: &[u8], start: usize) -> Result<Edges, Fault>
    requires { start ≤ length part.now }
    ensures { (result ≡ judged (length part.now) [] (from part.now start false)) × WalkedIn start (length part.now) result }
{
    let mut at = start;
    let mut second = start;
    'walk: loop {
        match next_judged(part, at) {
            Judged::Done(walked) => {
                return walked;
            }
            Judged::Empty { eq } => {
                at = eq + 1;
            }
            Judged::Named {
                mark,
                start: name,
                eq,
            } => {
                let first = first_of(part, name);
                let mut from = start;
                loop {
                    let earlier = next_mark(part, from);
                    if earlier >= mark {
                        break;
                    }
                    let other = earlier + 2;
                    if is_same(part, other, first, name, eq) {
                        second = mark;
                        break 'walk;
                    }
                    from = other;
                }
                at = eq + 1;
            }
        }
    }
    Err(Fault::of(Reason::LabelTwice, second))
}

// What the labels of a file say: 19, 21, then 20, 22, 23, 24 in one walk; or the places of TITLE and END.
pub fn labels(file: &[u8]) -> Result<Places, Fault>
    ensures { (result ≡ labelled file.now) × LabelledIn file.now result }
{
    if file.len() > LONGEST_FILE {
        return Err(Fault::of(Reason::LongFile, 0));
    }
    let title = open_title(file)?;
    let end = walk(file, title.eq + 1)?;
    Ok(Places {
        title: title.mark,
        eq: title.eq,
        end: end.mark,
    })
}
