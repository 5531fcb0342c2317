// The next label of a file by itself (01, The file), before it is compared with those before it, and whether two labels have one name.
#![tactic(auto)]

ghost use Rattle.std.specs.Prelude.{◌≡◌, ◌<◌, ◌≤◌, length};
ghost use Rattle.label_spec.specs.Names.{name_in};
ghost use Rattle.label_names.specs.Post.{first_of};
ghost use Rattle.label_judged.specs.Post.{Alike, Told};

use label_lines::{name_end, next_label};
use label_names::{differ, first_of, is_empty, is_end, is_title, same_name};
use label_spec::{Edges, Label};
use terms::{Fault, Reason};

// What the next label says by itself, before it is compared with those before it: the walk is done, or goes on after its `=`.
#[derive(Clone, Copy)]
pub enum Judged {
    Done(Result<Edges, Fault>),
    Empty {
        eq: usize,
    },
    Named {
        mark: usize,
        start: usize,
        eq: usize,
    },
}

// The next label by itself: 22 without one, 20 if it is bad, END, and 24 if it is TITLE.
pub fn next_judged(s: &[u8], at: usize) -> Judged
    requires { at ≤ length s.now }
    ensures { Told s.now at result }
{
    match next_label(s, at) {
        Label::None => Judged::Done(Err(Fault::of(Reason::NoEnd, s.len()))),
        Label::Bad { mark } => Judged::Done(Err(Fault::of(Reason::BadLabel, mark))),
        Label::At { mark, start, eq } => {
            if is_end(s, start, eq) {
                return Judged::Done(Ok(Edges { mark, eq }));
            }
            if is_title(s, start, eq) {
                return Judged::Done(Err(Fault::of(Reason::StrayTitle, mark)));
            }
            if is_empty(s, start, eq) {
                return Judged::Empty { eq };
            }
            Judged::Named { mark, start, eq }
        }
    }
}

// Is the label name that starts at `other` the one from `name` up to `eq`? The first byte of this one is given.
pub fn is_same(part: &[u8], other: usize, first: u8, name: usize, eq: usize) -> bool
    requires { (other ≤ length part.now) × (name < eq) × (eq ≤ length part.now) × (first ≡ first_of part.now name) }
    ensures { Alike part.now other (name_in part.now name eq) result }
{
    if differ(first_of(part, other), first) {
        return false;
    }
    let end = name_end(part, other);
    same_name(part, other, end, part, name, eq)
}
