// The text of a record, from the file if it has one, otherwise from the site's page lent beside it (02, T-09).
#![tactic(auto)]

ghost use Rattle.std.specs.Prelude.{◌≡◌, ◌-◌, ◌≤◌, length, take, drop};
ghost use Rattle.label_spec.specs.Names.{norm};
ghost use Rattle.label_spec.specs.Records.{record_for};
ghost use Rattle.profile_spec.specs.Profile.{shown};

use label_page::find_on_page;
use label_spec::Span;

// The part of a text from one place up to another.
fn part_of<'a>(s: &'a [u8], from: usize, to: usize) -> &'a [u8]
    requires { (from ≤ to) × (to ≤ length s.now) }
    ensures { result.now ≡ take (to - from) (drop from s.now) }
{
    &s[from..to]
}

// The text of the record with a name, from the file if it has one, otherwise from the site's page, shown where it stands: a part of one of the two lent slices. An empty part is answered where both
// lack it, and where the file's labels are refused.
pub fn text_of<'a>(file: &'a [u8], page: &'a [u8], name: &[u8]) -> &'a [u8]
    ensures { result.now ≡ shown file.now page.now (norm name.now) (record_for file.now (norm name.now)) }
{
    match label::find(file, name) {
        Ok(Some(Span { from, to })) => part_of(file, from, to),
        Err(_) => &file[..0],
        Ok(None) => match find_on_page(page, name) {
            Some(Span { from: a, to: b }) => part_of(page, a, b),
            None => &page[..0],
        },
    }
}
