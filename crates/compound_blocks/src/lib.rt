// The data blocks of a file that is not refused, in one pass with no stack (02, T-07): a block that holds blocks has said LINK, so at END only the block that the last TITLE opened can be one.
#![tactic(auto)]

ghost use Rattle.std.specs.Prelude.{◌≡◌, true, false, ◌+◌, ◌*◌, ◌<◌, ◌≤◌, length, drop};
ghost use Rattle.std.proofs.lemmas.List.Edits.{sets};
ghost use Rattle.label_spec.specs.Labels.{from};
ghost use Rattle.compound_spec.specs.Cut.{rest_of_line};
ghost use Rattle.compound_spec.specs.Answers.{entries};
ghost use Rattle.compound_law.specs.Flat.{flat, plain};
ghost use Rattle.compound_blocks.specs.Post.{Sees, Puts};

use compound_words::says_link;
use label_lines::{next_label, next_mark};
use label_names::{is_end, is_title};
use label_spec::Label;

// What the next label is to the pass: the walk is over; END; TITLE; a DATA TYPE that is LINK; or another.
#[derive(Clone, Copy)]
enum Seen {
    Over,
    End { mark: usize, eq: usize },
    Title { mark: usize, eq: usize },
    Link { eq: usize },
    Other { eq: usize },
}

// The next label, to the pass.
fn next_seen(s: &[u8], at: usize) -> Seen
    requires { at ≤ length s.now }
    ensures { Sees s.now at result }
{
    match next_label(s, at) {
        Label::None => Seen::Over,
        Label::Bad { mark: _ } => Seen::Over,
        Label::At { mark, start, eq } => {
            if is_end(s, start, eq) {
                return Seen::End { mark, eq };
            }
            if is_title(s, start, eq) {
                return Seen::Title { mark, eq };
            }
            let next = eq + 1;
            let to = next_mark(s, next);
            if says_link(s, start, eq, next, to) {
                return Seen::Link { eq };
            }
            Seen::Other { eq }
        }
    }
}

// The place after the line on which a place stands.
fn after_line(s: &[u8], at: usize) -> usize
    requires { at ≤ length s.now }
    ensures { result ≡ at + rest_of_line (drop at s.now) }
{
    let end = at + s[at..].iter().take_while(|b| **b != b'\n').count();
    s.len().min(end + 1)
}

// Stores the four numbers of a block from the entry i on. Numbers and no struct: C lends them so (the header, `lastarunc_find_blocks`).
fn put_block(blocks: &mut [u64], i: usize, from: usize, to: usize, start: usize, end: usize)
    requires { i + 4 ≤ length blocks.old }
    ensures { Puts blocks.old i from to start end blocks.new }
{
    blocks[i..i + 4].copy_from_slice(&[from as u64, to as u64, start as u64, end as u64]);
}

// Stores the first n data blocks of a file, whose outermost TITLE's `##` and `=` stand at these places. What is left is counted down by hand: only a turn that meets a data block counts.
pub fn store_blocks(file: &[u8], blocks: &mut [u64], title: usize, eq: usize, n: usize)
    requires { (eq < length file.now) × (n * 4 ≤ length blocks.old) }
    ensures { blocks.new ≡ sets blocks.old 0 (entries file.now (flat file.now (from file.now (eq + 1) false) n (plain title eq))) }
{
    let mut at = eq + 1;
    let mut head = title;
    let mut start = at;
    let mut unlinked = true;
    let mut i: usize = 0;
    let mut left = n;
    while left > 0 {
        match next_seen(file, at) {
            Seen::Over => {
                return;
            }
            Seen::End { mark, eq: q } => {
                if unlinked {
                    let to = after_line(file, q);
                    put_block(blocks, i, head, to, start, mark);
                    i += 4;
                    left -= 1;
                    unlinked = false;
                    at = q + 1;
                } else {
                    at = q + 1;
                }
            }
            Seen::Title { mark, eq: q } => {
                head = mark;
                at = q + 1;
                start = at;
                unlinked = true;
            }
            Seen::Link { eq: q } => {
                unlinked = false;
                at = q + 1;
            }
            Seen::Other { eq: q } => {
                at = q + 1;
            }
        }
    }
}
