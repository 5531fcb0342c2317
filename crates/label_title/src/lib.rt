// TITLE first (01, The file): only blank or comment lines precede it.
#![tactic(auto)]

ghost use Rattle.std.specs.Prelude.{◌≡◌, true};
ghost use Rattle.label_spec.specs.Labels.{hashed};
ghost use Rattle.label_spec.specs.File.{opened_at, opened};
ghost use Rattle.label_title.specs.Answers.{OpenIn};

use label_lines::{is_hashed, label_here};
use label_names::is_title;
use label_space::past_space;
use label_spec::{Edges, Label};
use terms::{Fault, Reason};

// The label whose `##` stands here, if it is TITLE.
fn title_here(s: &[u8], at: usize) -> Result<Edges, Fault>
    requires { hashed s.now at ≡ true }
    ensures { (result ≡ opened_at s.now at) × OpenIn s.now result }
{
    match label_here(s, at) {
        Label::None => Err(Fault::of(Reason::NoTitle, at)),
        Label::Bad { mark: _ } => Err(Fault::of(Reason::NoTitle, at)),
        Label::At { mark, start, eq } => {
            if is_title(s, start, eq) {
                Ok(Edges { mark, eq })
            } else {
                Err(Fault::of(Reason::NoTitle, at))
            }
        }
    }
}

// TITLE, if it is first: only blank or comment lines precede it (21).
pub fn open_title(file: &[u8]) -> Result<Edges, Fault>
    ensures { (result ≡ opened file.now) × OpenIn file.now result }
{
    let place = past_space(file, 0);
    if place >= file.len() {
        return Err(Fault::of(Reason::NoTitle, place));
    }
    if !is_hashed(file, place) {
        return Err(Fault::of(Reason::NoTitle, place));
    }
    title_here(file, place)
}
