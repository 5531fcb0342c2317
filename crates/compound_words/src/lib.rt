// What a block's own labels say (02, T-07): whether it is LINK, whether it has a table, and its BLOCKS.
#![tactic(auto)]

ghost use Rattle.std.specs.Prelude.{◌≡◌, true, ◌-◌, ◌≤◌, length, take, drop};
ghost use Rattle.terms.specs.Logic.{pick};
ghost use Rattle.label_spec.specs.Names.{name_in, sames};
ghost use Rattle.file_spec.specs.Texts.{XYDATA};
ghost use Rattle.compound_spec.specs.Blocks.{DATATYPE, BLOCKS, LINK, says};
ghost use Rattle.keyword_spec.specs.Keywords.{is_word};
ghost use Rattle.compound_words.specs.Post.{note_of};
ghost use Rattle.label_spec.specs.Parts.{span_of};

use compound_spec::Own;
use keyword::is_keyword;
use label_names::is_word;
use label_spec::Span;

// Is the text of a record LINK?
fn is_link(s: &[u8], from: usize, to: usize) -> bool
    requires { (from ≤ to) × (to ≤ length s.now) }
    ensures { result ≡ is_word LINK (take (to - from) (drop from s.now)) }
{
    is_keyword(&s[from..to], b"LINK")
}

// Is the name DATA TYPE?
fn is_data_type(s: &[u8], n: usize, e: usize) -> bool
    requires { (n ≤ e) × (e ≤ length s.now) }
    ensures { result ≡ sames (name_in s.now n e) DATATYPE }
{
    is_word(s, n, e, b"DATATYPE")
}

// Is the name XYDATA?
fn is_table(s: &[u8], n: usize, e: usize) -> bool
    requires { (n ≤ e) × (e ≤ length s.now) }
    ensures { result ≡ sames (name_in s.now n e) XYDATA }
{
    is_word(s, n, e, b"XYDATA")
}

// Is the name BLOCKS?
fn is_blocks(s: &[u8], n: usize, e: usize) -> bool
    requires { (n ≤ e) × (e ≤ length s.now) }
    ensures { result ≡ sames (name_in s.now n e) BLOCKS }
{
    is_word(s, n, e, b"BLOCKS")
}

// Does the label say that its block is LINK? Its name stands from n up to e, its text from `from` up to `to`.
pub fn says_link(s: &[u8], n: usize, e: usize, from: usize, to: usize) -> bool
    requires { (n ≤ e) × (e ≤ length s.now) × (from ≤ to) × (to ≤ length s.now) }
    ensures { result ≡ says s.now (name_in s.now n e) from to }
{
    if !is_data_type(s, n, e) {
        return false;
    }
    is_link(s, from, to)
}

// Either of two.
fn either(a: bool, b: bool) -> bool
    ensures { result ≡ pick a true b }
{
    if a { true } else { b }
}

// The text of BLOCKS, if this label is it.
fn blocks_of(
    s: &[u8],
    n: usize,
    e: usize,
    from: usize,
    to: usize,
    old: Option<Span>,
) -> Option<Span>
    requires { (n ≤ e) × (e ≤ length s.now) }
    ensures { result ≡ pick (sames (name_in s.now n e) BLOCKS) (Some (span_of from to)) old }
{
    if is_blocks(s, n, e) {
        return Some(Span { from, to });
    }
    old
}

// What a block has said, with one more label of its own.
pub fn note(s: &[u8], n: usize, e: usize, from: usize, to: usize, own: Own) -> Own
    requires { (n ≤ e) × (e ≤ length s.now) × (from ≤ to) × (to ≤ length s.now) }
    ensures { result ≡ note_of s.now (name_in s.now n e) from to own }
{
    let old = own.blocks;
    let link = either(says_link(s, n, e, from, to), own.link);
    let table = either(is_table(s, n, e), own.table);
    let blocks = blocks_of(s, n, e, from, to, old);
    Own {
        link,
        table,
        blocks,
    }
}
