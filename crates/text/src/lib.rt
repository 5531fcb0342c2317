// What the readers share: a text is lent bytes, and past its end nothing stands (01, "The file"); and the line and column of a place in it (02, T-01).
#![tactic(auto)]

ghost use Rattle.std.specs.Prelude.{◌≡◌, suc, ◌<◌, eqb, get_or};
ghost use Rattle.terms.specs.Logic.{pick};
ghost use Rattle.terms.specs.Refusals.{refusal_in};

use terms::Refusal;

// The byte at a place, 0 past the end.
pub fn byte_at(s: &[u8], i: usize) -> u8
    ensures { result ≡ get_or s.now i 0 }
{
    s.get(i).copied().unwrap_or(0)
}

// Does a byte end a line? Only LF does.
fn ends_line(b: u8) -> bool
    ensures { result ≡ eqb b 10 }
{
    b == b'\n'
}

// The line of the place after a byte.
fn next_line(line: usize, b: u8) -> usize
    requires { line < 18446744073709551615 }
    ensures { result ≡ pick (eqb b 10) (suc line) line }
{
    if ends_line(b) { line + 1 } else { line }
}

// The column of the place after a byte.
fn next_column(column: usize, b: u8) -> usize
    requires { column < 18446744073709551615 }
    ensures { result ≡ pick (eqb b 10) 1 (suc column) }
{
    if ends_line(b) { 1 } else { column + 1 }
}

// The refusal of a number at a place of a text: the bytes before it are gone over once, and only where something is refused.
pub fn refusal_in(s: &[u8], number: u64, place: usize) -> Refusal
    ensures { result ≡ refusal_in s.now number place }
{
    let end = place.min(s.len());
    let mut line: usize = 1;
    let mut column: usize = 1;
    for b in &s[..end] {
        line = next_line(line, *b);
        column = next_column(column, *b);
    }
    Refusal {
        number,
        place,
        line,
        column,
    }
}
