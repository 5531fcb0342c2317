// The length of the lines of a body (02, T-06, "Eighty bytes is the rule"). From a line's first byte the end is looked for at the back of the 80 bytes that it may have: CR LF after them,
// or else the last LF among 81. What lies before it belongs to lines that are short enough, so that most bytes of a body are not looked at.
#![tactic(auto)]

ghost use Rattle.std.specs.Prelude.{◌≡◌, true, ◌+◌, ◌<◌, length};
ghost use Rattle.table_spec.specs.Frame.{longest_line};
ghost use Rattle.table_spec.specs.Reading.{long_line};
ghost use Rattle.table_lengths.specs.Lengths.{LastLf, ends_there, NextLine, shown_long};

use frame::Frame;
use text::byte_at;

// The place after the last LF among the 81 bytes from a place on; the place itself if none is there.
fn past_last_lf(s: &[u8], at: usize) -> usize
    requires { at + longest_line < length s.now }
    ensures { LastLf s.now at result }
{
    for i in (at..at + Frame::LONGEST_LINE + 1).rev() {
        if s[i] == b'\n' {
            return i + 1;
        }
    }
    at
}

// Does CR LF stand directly after the 80 bytes from a place on?
fn ends_at_80(s: &[u8], at: usize) -> bool
    requires { at + longest_line < length s.now }
    ensures { result ≡ ends_there s.now at }
{
    s[at + Frame::LONGEST_LINE] == b'\r' && byte_at(s, at + Frame::LONGEST_LINE + 1) == b'\n'
}

// From a line's first byte, with at least 81 bytes left: the first byte of a later line, where all lines before that one are short enough; the line's own if it is too long.
fn next_line(s: &[u8], at: usize) -> usize
    requires { at + longest_line < length s.now }
    ensures { NextLine s.now at result }
{
    if ends_at_80(s, at) {
        at + Frame::LONGEST_LINE + 2
    } else {
        past_last_lf(s, at)
    }
}

// Where the first line over 80 bytes of a body begins.
pub fn long_line(s: &[u8]) -> Option<usize>
    ensures { result ≡ shown_long (long_line true 0 s.now) }
{
    let mut at: usize = 0;
    while s.len() - at > Frame::LONGEST_LINE {
        let next = next_line(s, at);
        if next == at {
            return Some(at);
        }
        at = next;
    }
    None
}
