// Lines of a body (01, "Spelling of a body"): blanks, comments, ends of lines, the start of the next line, and heads.
#![tactic(auto)]

ghost use Rattle.std.specs.Prelude.{◌≡◌, ◌<◌, ◌≤◌, length};
ghost use Rattle.alphabet_spec.specs.Entries.{entry_at};
ghost use Rattle.alphabet.specs.Standing.{«standing»};
ghost use Rattle.table_spec.specs.Values.{headed_at};
ghost use Rattle.table_spec.specs.Reading.{bare, unit};
ghost use Rattle.table_lines.specs.Seen.{here};
ghost use Rattle.table_lines.specs.Ends.{Blanked, Commented, Ended, LineOpens, Started};
ghost use Rattle.table_lines.specs.Heads.{Pointed, Headed};
ghost use Rattle.table_lines.specs.Parts.{head_with};

use alphabet::{
    CR, DOLLAR, END, LF, MINUS, PLUS, POINT, Run, digits, entry_at, entry_there, is_blank,
    is_digit, standing,
};

// The next line that is not passed over: the place of its first token and the entry there; the end of the body; or a byte that cannot stand there.
#[derive(Clone, Copy)]
pub enum Start {
    Head(usize, u64),
    End,
    Bad(usize),
}

// A head: its abscissa plus 10,000,000,000, what its last written place is worth in thousandths, and the place after it.
#[derive(Clone, Copy)]
pub struct HeadRead {
    pub abscissa: u64,
    pub unit: u64,
    pub at: usize,
}

// The first place from here on where no blank stands. A loop by hand, since it is hot: where no blank stands, as most often, it asks for one byte, and an iterator over the rest of the text makes a slice first.
pub fn blanks(s: &[u8], from: usize) -> usize
    requires { from ≤ length s.now }
    ensures { Blanked s.now from result }
{
    let mut i = from;
    while is_blank(standing(s, i)) {
        i += 1;
    }
    i
}

// The place after a comment: past its LF, or the end of the body.
fn comment(s: &[u8], from: usize) -> usize
    requires { from ≤ length s.now }
    ensures { Commented s.now from result }
{
    let end = from + s[from..].iter().take_while(|b| **b != b'\n').count();
    s.len().min(end + 1)
}

// The place of the next line, where a line's end stands at a place whose entry e is a point's or above, a comment counted in; none where a byte cannot stand there.
pub fn line_end(s: &[u8], at: usize, e: u64) -> Option<usize>
    requires { (at ≤ length s.now) × (e ≡ entry_at s.now at) × (160 ≤ e) }
    ensures { Ended s.now at result }
{
    if e == END {
        return Some(at);
    }
    let next = at + 1;
    if e == LF {
        return Some(next);
    }
    if e == CR {
        if entry_at(s, next) == LF {
            return Some(next + 1);
        }
        return None;
    }
    if e == DOLLAR {
        if entry_at(s, next) == DOLLAR {
            return Some(comment(s, next + 1));
        }
        return None;
    }
    None
}

// The start of the next line that is not passed over.
pub fn row_start(s: &[u8], from: usize) -> Start
    requires { from ≤ length s.now }
    ensures { Started s.now from result }
{
    let mut at = from;
    loop {
        at = blanks(s, at);
        let e = entry_there(s, at);
        if e < POINT {
            return Start::Head(at, e);
        }
        if e == END {
            return Start::End;
        }
        match line_end(s, at, e) {
            Some(j) => {
                at = j;
            }
            None => {
                return Start::Bad(at);
            }
        }
    }
}

// Only blanks or a comment between a head and its line's end? (refusal 7)
pub fn bare_line(s: &[u8], at: usize) -> bool
    requires { at ≤ length s.now }
    ensures { result ≡ bare (here s.now at) }
{
    let b = blanks(s, at);
    let e = entry_at(s, b);
    if e < POINT {
        return false;
    }
    match line_end(s, b, e) {
        Some(_) => true,
        None => false,
    }
}

// A head's unit (02, T-03), in thousandths: what the last of n digits after the point is worth.
fn worth(n: usize) -> u64
    requires { n ≤ 3 }
    ensures { result ≡ unit n }
{
    match n {
        0 => 1000,
        1 => 100,
        2 => 10,
        _ => 1,
    }
}

// A head of so many thousandths, with its unit.
fn abscissa(minus: bool, size: u64, unit: u64, at: usize) -> Option<HeadRead>
    requires { size ≤ 9999999999 }
    ensures { result ≡ Some (head_with (headed_at minus size) unit at) }
{
    if minus {
        return Some(HeadRead {
            abscissa: 10000000000 - size,
            unit,
            at,
        });
    }
    Some(HeadRead {
        abscissa: 10000000000 + size,
        unit,
        at,
    })
}

// The byte of a point.
const FULL_STOP: u64 = 46;

// After the whole number of a head, which was read as w: perhaps a point and at most three digits.
fn fraction(s: &[u8], w: Run, minus: bool) -> Option<HeadRead>
    requires { (w.at ≤ length s.now) × (w.b ≡ standing s.now w.at) × (w.v < 10000000) × (16 ≤ entry_at s.now w.at) }
    ensures { Pointed s.now w.at w.v minus result }
{
    let at = w.at;
    let v = w.v;
    if w.b != FULL_STOP {
        return abscissa(minus, v * 1000, 1000, at);
    }
    let next = at + 1;
    let f = digits(s, next, v, 3);
    if is_digit(f.b) {
        return None;
    }
    let end = f.at;
    let unit = worth(end - next);
    let size = f.v * unit;
    abscissa(minus, size, unit, end)
}

// The head at a place whose entry is e: one to seven digits, perhaps a sign before them, and perhaps a fraction.
pub fn head(s: &[u8], at: usize, e: u64) -> Option<HeadRead>
    requires { LineOpens s.now at e }
    ensures { Headed s.now at result }
{
    let from = if e < PLUS { at } else { at + 1 };
    let w = digits(s, from, 0, 7);
    if is_digit(w.b) {
        return None;
    }
    if w.at == from {
        return None;
    }
    fraction(s, w, e >= MINUS)
}
