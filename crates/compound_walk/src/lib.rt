// The walk over the blocks of a file (02, T-07): 20, 22, 23, 24 and 33, what a block's own labels say, and how many data blocks stand in it.
#![tactic(auto)]

ghost use Rattle.std.specs.Prelude.{◌≡◌, ◌+◌, ◌<◌, length};
ghost use Rattle.terms.specs.Logic.{both};
ghost use Rattle.compound_walk.specs.Turns.{counted, Closes};

use compound_names::own_clash;
use compound_spec::Own;
use compound_words::note;
use label_lines::{next_label, next_mark};
use label_names::{is_end, is_title};
use label_spec::Label;
use terms::{Fault, Reason};

// Where the walk over a block ends, at its END: the places of its `##` and `=`, what the block's own labels said, and how many data blocks stand in it.
#[derive(Clone, Copy)]
pub struct Closed {
    pub end: usize,
    pub last: usize,
    pub own: Own,
    pub count: usize,
}

// Both of two.
fn is_both(a: bool, b: bool) -> bool
    ensures { result ≡ both a b }
{
    if a { b } else { false }
}

// The data blocks of an inner block after those before it; itself among them, if it is not LINK.
pub fn count_more(link: bool, before: usize, within: usize) -> usize
    requires { before + within < 9223372036854775807 }
    ensures { result ≡ counted link before within }
{
    let both = before + within;
    if link {
        return both;
    }
    both + 1
}

// The walk over the labels of a block from after its TITLE's `=`, up to its END or to the first of 20, 22, 23, 24, 33.
// "Each inner block may hold blocks of its own": the walk calls itself at an inner TITLE, and the depth left falls at each call.
pub fn walk_block(s: &[u8], title: usize, eq: usize, left: usize) -> Result<Closed, Fault>
    requires { (eq < length s.now) × (left < 8) }
    ensures { Closes s.now title eq left result }
{
    let first = eq + 1;
    let mut at = first;
    let mut own = Own {
        link: false,
        table: false,
        blocks: None,
    };
    let mut count: usize = 0;
    loop {
        match next_label(s, at) {
            Label::None => {
                return Err(Fault::of(Reason::NoEnd, s.len()));
            }
            Label::Bad { mark } => {
                return Err(Fault::of(Reason::BadLabel, mark));
            }
            Label::At {
                mark,
                start: name,
                eq: e,
            } => {
                let next = e + 1;
                if is_end(s, name, e) {
                    return Ok(Closed {
                        end: mark,
                        last: e,
                        own,
                        count,
                    });
                }
                if is_title(s, name, e) {
                    if !own.link {
                        return Err(Fault::of(Reason::StrayTitle, mark));
                    }
                    if left == 0 {
                        return Err(Fault::of(Reason::StrayTitle, mark));
                    }
                    let inner = walk_block(s, mark, e, left - 1)?;
                    count = count_more(inner.own.link, count, inner.count);
                    at = inner.last + 1;
                } else {
                    if own_clash(s, first, mark, name, e) {
                        return Err(Fault::of(Reason::LabelTwice, mark));
                    }
                    let to = next_mark(s, next);
                    own = note(s, name, e, next, to, own);
                    if is_both(own.link, own.table) {
                        return Err(Fault::of(Reason::TableInLink, mark));
                    }
                    at = next;
                }
            }
        }
    }
}
