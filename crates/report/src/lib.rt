// What the programs print (01, "Bench samples"): ordinates, and on standard error, which each function is lent, what a person is told.
// What is printed is tested against stored output; nothing is claimed of it.
#![tactic(auto)]

use refusal_words::meaning;
use std::io::Print;
use std::{fmt, io};
use terms::Refusal;

// An ordinate as it stands in the slice, `?` for a missing one.
#[derive(Drop)]
pub struct Ordinate(pub i32);

impl fmt::Display for Ordinate {
    fn fmt<W: fmt::Write>(&self, f: &mut fmt::Formatter<W>) -> fmt::Result {
        match self.0 {
            i32::MIN => write!(f, "?"),
            y => write!(f, "{y}"),
        }
    }
}

// A number of thousandths as a decimal.
#[derive(Drop)]
struct Thousandths(i64);

impl fmt::Display for Thousandths {
    fn fmt<W: fmt::Write>(&self, f: &mut fmt::Formatter<W>) -> fmt::Result {
        let sign = if self.0 < 0 { "-" } else { "" };
        let size = self.0.unsigned_abs();
        write!(f, "{sign}{}.{:03}", size / 1000, size % 1000)
    }
}

// The first line of a text, as much as fits 80 columns: what is not printed in ASCII is a point. Its end is looked for
// among as many bytes as can show it, so that a long line costs no more.
#[derive(Drop)]
struct FirstLine<'a>(&'a [u8]);

impl fmt::Display for FirstLine<'_> {
    fn fmt<W: fmt::Write>(&self, f: &mut fmt::Formatter<W>) -> fmt::Result {
        let near = &self.0[..self.0.len().min(81)];
        for b in first_line(near).iter().take(80) {
            f.write_char(match *b {
                b' '..=b'~' => char::from(*b),
                _ => '.',
            })?;
        }
        Ok(())
    }
}

// The first line of a text, without the LF or CR LF at its end.
fn first_line(text: &[u8]) -> &[u8] {
    match text.iter().position(|b| *b == b'\n') {
        Some(n) => text[..n].strip_suffix(b"\r").unwrap_or(&text[..n]),
        None => text,
    }
}

// Where a refusal stands in the text and what it means, for a person (02, T-01): line and column, the line itself and a caret. Standard output stays as document 01 has it.
pub fn explain(errors: &impl Print, text: &[u8], r: Refusal) -> io::Result<()> {
    println!(errors;
        "line {}, column {}: {}",
        r.line,
        r.column,
        meaning(r.number)
    )?;
    let before = r.column.saturating_sub(1).min(79);
    if before <= r.place {
        let rest = text.get(r.place - before..).unwrap_or(&[]);
        println!(errors; "{}\n{:before$}^", FirstLine(rest), "")?;
    }
    Ok(())
}

// That an abscissa was rounded, for a person (02, T-08): the record that was divided, and what it was rounded to.
pub fn explain_rounded(errors: &impl Print, record: &[u8], x: i64) -> io::Result<()> {
    errors.write_all(record)?;
    println!(errors;
        " / XFACTOR is not a whole number of thousandths: rounded to {}",
        Thousandths(x)
    )
}
