// Labels: `##` first on a line (blanks aside), a name, then that line's first `=` (01, The file).
#![tactic(auto)]

ghost use Rattle.std.specs.Prelude.{◌≡◌, true, false, ◌+◌, ◌<◌, ◌≤◌, length};
ghost use Rattle.label_spec.specs.Names.{blank};
ghost use Rattle.label_spec.specs.Labels.{hashed};
ghost use Rattle.label_lines.specs.Post.{NameEnd, Within, LineEnd, Unblanked, Marked, Met};

use label_names::name_length;
use label_spec::Label;
use text::byte_at;

// The most bytes of a name as it is compared.
const LONGEST_NAME: usize = 40;

// Is it a space or a tab?
#[tactic(auto, unfolding(label_spec::specs::Names::blank))]
fn is_blank(b: u8) -> bool
    ensures { result ≡ blank b }
{
    matches!(b, b' ' | b'\t')
}

// The place of the line's first `=` from a place on, or else of the line's end.
pub fn name_end(s: &[u8], at: usize) -> usize
    requires { at ≤ length s.now }
    ensures { NameEnd s.now at result }
{
    at + s[at..]
        .iter()
        .take_while(|b| **b != b'=' && **b != b'\n')
        .count()
}

// Is LF one of the eight bytes from here on? No test hangs on another, so the compiler makes them together.
fn lf_near(s: &[u8], i: usize) -> bool
    requires { i + 8 ≤ length s.now }
    ensures { Within s.now i (i + 8) result }
{
    (s[i] == b'\n')
        | (s[i + 1] == b'\n')
        | (s[i + 2] == b'\n')
        | (s[i + 3] == b'\n')
        | (s[i + 4] == b'\n')
        | (s[i + 5] == b'\n')
        | (s[i + 6] == b'\n')
        | (s[i + 7] == b'\n')
}

// The place of the line's LF from a place on, or the end, byte for byte.
// By index, as past_blanks and is_hashed are: of a file of very short lines a chain over the rest of the text, made anew for each line, took up to twice the time.
fn rest_of_line(s: &[u8], at: usize) -> usize
    requires { at ≤ length s.now }
    ensures { LineEnd s.now at result }
{
    for i in at..s.len() {
        if s[i] == b'\n' {
            return i;
        }
    }
    s.len()
}

// The place of the line's LF from a place on, or the end: most of a file is passed here, eight bytes a turn.
fn line_end(s: &[u8], at: usize) -> usize
    requires { at ≤ length s.now }
    ensures { LineEnd s.now at result }
{
    let mut i = at;
    while s.len() - i >= 8 && !lf_near(s, i) {
        i += 8;
    }
    rest_of_line(s, i)
}

// The place after blanks.
pub fn past_blanks(s: &[u8], at: usize) -> usize
    requires { at ≤ length s.now }
    ensures { Unblanked s.now at result }
{
    for i in at..s.len() {
        if !is_blank(s[i]) {
            return i;
        }
    }
    s.len()
}

// Does `##` stand here?
#[tactic(auto, unfolding(label_spec::specs::Labels::hashed))]
pub fn is_hashed(s: &[u8], at: usize) -> bool
    requires { at < length s.now }
    ensures { result ≡ hashed s.now at }
{
    s[at] == b'#' && byte_at(s, at + 1) == b'#'
}

// The place of the next `##` that is first on a line after this one, or the end.
pub fn next_mark(s: &[u8], at: usize) -> usize
    requires { at ≤ length s.now }
    ensures { Marked s.now at result }
{
    let mut i = at;
    loop {
        let end = line_end(s, i);
        if end >= s.len() {
            return end;
        }
        let line = end + 1;
        let k = past_blanks(s, line);
        if k >= s.len() || is_hashed(s, k) {
            return k;
        }
        i = k;
    }
}

// The label whose `##` stands here.
pub fn label_here(s: &[u8], at: usize) -> Label
    requires { hashed s.now at ≡ true }
    ensures { Met s.now at true result }
{
    let start = at + 2;
    let eq = name_end(s, start);
    if byte_at(s, eq) != b'=' {
        return Label::Bad { mark: at };
    }
    if name_length(s, start, eq) > LONGEST_NAME {
        return Label::Bad { mark: at };
    }
    Label::At {
        mark: at,
        start,
        eq,
    }
}

// The first label on a line after this one.
pub fn next_label(s: &[u8], at: usize) -> Label
    requires { at ≤ length s.now }
    ensures { Met s.now at false result }
{
    let mark = next_mark(s, at);
    if mark >= s.len() {
        return Label::None;
    }
    label_here(s, mark)
}
