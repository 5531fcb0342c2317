// The records of a file (01, The file), found by their names.
#![tactic(auto)]

ghost use Rattle.std.specs.Prelude.{◌≡◌, true, false, ◌+◌, ◌-◌, ◌<◌, ◌≤◌, length, take, drop};
ghost use Rattle.label_spec.specs.Names.{norm};
ghost use Rattle.label_spec.specs.Labels.{from, hashed};
ghost use Rattle.label_spec.specs.Records.{record_of, record_for, text_of};
ghost use Rattle.label.specs.Answers.{found_in, FindIn};
ghost use Rattle.label_title.specs.Answers.{TitleAt};
ghost use Rattle.label_names.specs.Post.{first_of};
ghost use Rattle.label.specs.Post.{Named};

use label_lines::{label_here, next_mark};
use label_names::{differ, first_of, is_word};
use label_spec::{Label, Places, Span};
use label_walk::labels;
use terms::Refusal;
use text::refusal_in;

// The place of the `=` of the label whose `##` stands here, if it has this name. The first byte of the name is given.
fn eq_here(part: &[u8], at: usize, first: u8, name: &[u8]) -> Option<usize>
    requires { (hashed part.now at ≡ true) × (first ≡ first_of name.now 0) }
    ensures { Named part.now at (norm name.now) result }
{
    let start = at + 2;
    if differ(first_of(part, start), first) {
        return None;
    }
    match label_here(part, at) {
        Label::None => None,
        Label::Bad { mark: _ } => None,
        Label::At {
            mark: _,
            start: n,
            eq,
        } => {
            if is_word(part, n, eq, name) {
                return Some(eq);
            }
            None
        }
    }
}

// The text of the first record with a name, among the labels of a part of a file after the place `start` and before `stop`.
pub fn find_record(part: &[u8], start: usize, stop: usize, name: &[u8]) -> Option<Span>
    requires { start ≤ length part.now }
    ensures { (result ≡ record_of (length part.now) stop (norm name.now) (from part.now start false)) × found_in start (length part.now) result }
{
    let first = first_of(name, 0);
    let mut at = start;
    loop {
        let mark = next_mark(part, at);
        if mark >= stop {
            return None;
        }
        if mark >= part.len() {
            return None;
        }
        match eq_here(part, mark, first, name) {
            Some(eq) => {
                let next = eq + 1;
                let end = next_mark(part, next);
                return Some(Span {
                    from: next,
                    to: end,
                });
            }
            None => {
                at = mark + 2;
            }
        }
    }
}

// The text of the record with a name, TITLE's own among them, before END.
fn find_from_title(file: &[u8], title: usize, eq: usize, end: usize, name: &[u8]) -> Option<Span>
    requires { TitleAt file.now title eq × (title < end) }
    ensures { (result ≡ record_of (length file.now) end (norm name.now) (from file.now title true)) × found_in eq (length file.now) result }
{
    let start = title + 2;
    let next = eq + 1;
    if is_word(file, start, eq, name) {
        let to = next_mark(file, next);
        return Some(Span { from: next, to });
    }
    find_record(file, next, end, name)
}

// Where the text of the record with a name stands in a file, if its labels are not refused.
pub fn find(file: &[u8], name: &[u8]) -> Result<Option<Span>, Refusal>
    ensures { (result ≡ record_for file.now (norm name.now)) × FindIn (length file.now) result }
{
    match labels(file) {
        Err(fault) => Err(refusal_in(file, fault.number, fault.place)),
        Ok(Places { title, eq, end }) => Ok(find_from_title(file, title, eq, end, name)),
    }
}

// The part of a file from one place up to another.
fn part_of<'a>(file: &'a [u8], from: usize, to: usize) -> &'a [u8]
    requires { (from ≤ to) × (to ≤ length file.now) }
    ensures { result.now ≡ take (to - from) (drop from file.now) }
{
    &file[from..to]
}

// The text of the record with a name, shown where it stands (01, The file). An empty part is answered for a record that is absent, for refused labels and for an empty text alike: `find` tells which.
pub fn record_text<'a>(file: &'a [u8], name: &[u8]) -> &'a [u8]
    ensures { result.now ≡ text_of file.now (record_for file.now (norm name.now)) }
{
    match find(file, name) {
        Ok(Some(Span { from, to })) => part_of(file, from, to),
        Ok(None) => &file[..0],
        Err(_) => &file[..0],
    }
}
