// Records of a text that begins with a `##`, or that is a page: a run of records without TITLE or END (02, T-07 and T-09).
#![tactic(auto)]

ghost use Rattle.std.specs.Prelude.{◌≡◌, true, ◌<◌, length};
ghost use Rattle.label_spec.specs.Names.{norm};
ghost use Rattle.label_spec.specs.Labels.{hashed};
ghost use Rattle.label_page.specs.Post.{FindsFrom};

use label::find_record;
use label_lines::{is_hashed, label_here, next_mark, past_blanks};
use label_names::is_word;
use label_spec::{Label, Span};

// The text of the first record with a name, among the labels from the `##` that stands here on and before `stop`.
pub fn find_from_mark(s: &[u8], at: usize, stop: usize, name: &[u8]) -> Option<Span>
    requires { (hashed s.now at ≡ true) × (at < stop) }
    ensures { FindsFrom s.now at stop (norm name.now) result }
{
    let after = at + 2;
    match label_here(s, at) {
        Label::None => find_record(s, after, stop, name),
        Label::Bad { mark: _ } => find_record(s, after, stop, name),
        Label::At {
            mark: _,
            start: n,
            eq,
        } => {
            if is_word(s, n, eq, name) {
                let next = eq + 1;
                let to = next_mark(s, next);
                return Some(Span { from: next, to });
            }
            find_record(s, after, stop, name)
        }
    }
}

// The text of the first record with a name on a page, whose first label may stand at its first byte. Labels that are bad are passed, but end the text before them.
pub fn find_on_page(page: &[u8], name: &[u8]) -> Option<Span>
    ensures { FindsFrom page.now 0 (length page.now) (norm name.now) result }
{
    let at = past_blanks(page, 0);
    if at >= page.len() {
        return None;
    }
    if is_hashed(page, at) {
        return find_from_mark(page, at, page.len(), name);
    }
    find_record(page, at, page.len(), name)
}
