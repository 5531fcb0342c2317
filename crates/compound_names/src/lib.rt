// "Labels are compared within their own block only" (02, T-07): a scan of the block's labels, which passes over inner blocks.
#![tactic(auto)]

ghost use Rattle.std.specs.Prelude.{◌≡◌, true, false, ◌+◌, ◌<◌, ◌≤◌, length};
ghost use Rattle.label_spec.specs.Names.{name_in};
ghost use Rattle.label_spec.specs.Labels.{from, hashed};
ghost use Rattle.label_names.specs.Post.{first_of};
ghost use Rattle.compound_names.specs.OwnNames.{own_known, own_clash};
ghost use Rattle.compound_names.specs.Post.{other_by, Meets, Passes};

use label_lines::{label_here, next_mark};
use label_names::{differ, first_of, is_empty, is_end, is_title, same_name};
use label_spec::Label;

// What one label means to a scan for a name among a block's own labels: it has the name; the block is over; or so many blocks down the scan goes on.
#[derive(Clone, Copy)]
enum Meet {
    Known,
    Over,
    Depth(usize),
}

// Is a name with this first byte neither END nor TITLE, nor the one that is looked for, by its first byte? Most are, and are then looked at no further.
#[tactic(auto, unfolding(crate::specs::Post::other_by))]
fn is_other(byte: u8, first: u8) -> bool
    ensures { result ≡ other_by byte first }
{
    differ(byte, b'E') && differ(byte, b'T') && differ(byte, first)
}

// One label of the scan, which stands so many blocks down: its name runs from n up to e, the one that is looked for from `name` up to `eq`.
fn met(s: &[u8], n: usize, e: usize, depth: usize, name: usize, eq: usize) -> Meet
    requires { (n ≤ e) × (e ≤ length s.now) × (name ≤ eq) × (eq ≤ length s.now) × (depth < length s.now) }
    ensures { Meets (name_in s.now name eq) (name_in s.now n e) depth result }
{
    if is_end(s, n, e) {
        if depth == 0 {
            return Meet::Over;
        }
        return Meet::Depth(depth - 1);
    }
    if is_title(s, n, e) {
        return Meet::Depth(depth + 1);
    }
    if depth != 0 {
        return Meet::Depth(depth);
    }
    if same_name(s, n, e, s, name, eq) {
        return Meet::Known;
    }
    Meet::Depth(depth)
}

// The label whose `##` stands here, to the scan. A bad one is passed over.
fn met_here(s: &[u8], at: usize, depth: usize, first: u8, name: usize, eq: usize) -> Meet
    requires { (hashed s.now at ≡ true) × (depth < length s.now) × (name < eq) × (eq ≤ length s.now) × (first ≡ first_of s.now name) }
    ensures { Passes s.now at (name_in s.now name eq) depth result }
{
    let start = at + 2;
    if is_other(first_of(s, start), first) {
        return Meet::Depth(depth);
    }
    match label_here(s, at) {
        Label::None => Meet::Depth(depth),
        Label::Bad { mark: _ } => Meet::Depth(depth),
        Label::At {
            mark: _,
            start: n,
            eq: e,
        } => met(s, n, e, depth, name, eq),
    }
}

// Does a label of the block's own before `mark` have the name from `name` up to `eq`? The scan begins at `start`, in the block, and passes over inner blocks.
fn own_known(s: &[u8], start: usize, mark: usize, name: usize, eq: usize) -> bool
    requires { (start ≤ length s.now) × (name < eq) × (eq ≤ length s.now) }
    ensures { result ≡ own_known mark (name_in s.now name eq) (from s.now start false) 0 }
{
    let first = first_of(s, name);
    let mut at = start;
    let mut depth: usize = 0;
    loop {
        let here = next_mark(s, at);
        if here >= mark || here >= s.len() {
            return false;
        }
        match met_here(s, here, depth, first, name, eq) {
            Meet::Known => {
                return true;
            }
            Meet::Over => {
                return false;
            }
            Meet::Depth(d) => {
                depth = d;
                at = here + 2;
            }
        }
    }
}

// Is a label twice in its block? Empty names are excepted (23).
pub fn own_clash(s: &[u8], start: usize, mark: usize, name: usize, eq: usize) -> bool
    requires { (start ≤ length s.now) × (name ≤ eq) × (eq ≤ length s.now) }
    ensures { result ≡ own_clash mark (name_in s.now name eq) (from s.now start false) }
{
    !is_empty(s, name, eq) && own_known(s, start, mark, name, eq)
}
