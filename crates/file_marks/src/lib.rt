// The text of a record, byte by byte (01, "The file"): where a fault in it stands, and the list of XYDATA.
#![tactic(auto)]

ghost use Rattle.std.specs.Prelude.{◌≡◌, ◌-◌, ◌≤◌, length, drop};
ghost use Rattle.file_spec.specs.Texts.{«spacing», text_in, mark_in, mark_of, LIST, ended, listed_in};
ghost use Rattle.file_marks.specs.Spans.{Within, ListedWithin, list_step};

use label_spec::Span;
use text::byte_at;

// A blank, LF, or CR before LF: b, with c after it.
#[tactic(auto, unfolding(file_spec::specs::Texts::spacing, label_spec::specs::Names::blank))]
fn spacing(b: u8, c: u8) -> bool
    ensures { result ≡ spacing b c }
{
    matches!(b, b' ' | b'\t' | b'\n') || (b == b'\r' && c == b'\n')
}

// The first place of a text with no blank and no line end.
fn first_mark(s: &[u8]) -> usize
    ensures { (result ≡ mark_in s.now) × (result ≤ length s.now) }
{
    for (i, b) in s.iter().enumerate() {
        if !spacing(*b, byte_at(s, i + 1)) {
            return i;
        }
    }
    s.len()
}

// Where a fault in the text of a record stands (26), counted in the file.
pub fn mark_in(file: &[u8], t: Span) -> usize
    requires { Within (length file.now) t }
    ensures { result ≡ mark_of file.now t }
{
    let from = t.from;
    let to = t.to;
    from + first_mark(&file[from..to])
}

// How much of the list of XYDATA stands after the byte b, with c after it: the same after a blank, one more where b is the next of it, 12 where it is not.
fn list_step(b: u8, c: u8, k: usize) -> usize
    ensures { result ≡ list_step b c k }
{
    if spacing(b, c) {
        k
    } else if k < 11 && b == b"(X++(Y..Y))"[k] {
        k + 1
    } else {
        12
    }
}

// The line of the list has ended, after so much of it.
fn list_ended(k: usize, i: usize) -> Option<usize>
    requires { k ≤ 11 }
    ensures { result ≡ ended (drop k LIST) i }
{
    if k == 11 {
        return Some(i);
    }
    None
}

// The first line of a text against the list of XYDATA (27).
fn list_line(s: &[u8]) -> Option<usize>
    ensures { (result ≡ listed_in s.now) × ListedWithin (length s.now) result }
{
    let mut k: usize = 0;
    for (i, b) in s.iter().enumerate() {
        let next = i + 1;
        if *b == b'\n' {
            return list_ended(k, next);
        }
        let n = list_step(*b, byte_at(s, next), k);
        if n > 11 {
            return None;
        }
        k = n;
    }
    list_ended(k, s.len())
}

// The list of XYDATA: where in its text the body starts.
pub fn list_in(file: &[u8], t: Span) -> Option<usize>
    requires { Within (length file.now) t }
    ensures { (result ≡ listed_in (text_in file.now t)) × ListedWithin (t.to - t.from) result }
{
    let from = t.from;
    let to = t.to;
    list_line(&file[from..to])
}
