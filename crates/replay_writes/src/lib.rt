// The cases of `replay` that are tables to write, and to read back (second/README.md, "The stored cases").
#![tactic(auto)]

use replay_back::{TEXT, WRITTEN, reads_back, show_text};
use replay_input::{Asked, take_ordinates};
use replay_show::show_touched;
use std::io;
use std::io::{Print, Read};
use table_spec::Style;
use terms::Fault;

// The answer to a table: `ok`, the length and the text, or the refusal.
fn show_written(
    output: &impl Print,
    a: Asked,
    answer: Result<usize, Fault>,
    ys: &[i32],
    text: &[u8],
) -> io::Result<()> {
    match answer {
        Ok(n) => {
            let written = &text[..n.min(text.len())];
            show_text(output, written, reads_back(a, ys, written))?;
            show_touched(output, text, n, &b'~')
        }
        Err(f) => {
            println!(output; "refused {} {}", f.number, f.place)?;
            show_touched(output, text, 0, &b'~')
        }
    }
}

// Writes the table, or refusal 0, which no document numbers, if this program has too little room.
fn write_form(style: Style, a: Asked, ys: &[i32], text: &mut [u8]) -> Result<usize, Fault> {
    match (ys.get(..a.count), text.get_mut(..a.room)) {
        (Some(y), Some(t)) => table_write::write_form(style, a.first, a.last, a.points, y, t),
        _ => Err(Fault::new(0, 0)),
    }
}

// A table to write in a form: its ordinates follow.
pub fn write_case<R: Read, P: Print>(
    input: &mut R,
    output: &P,
    style: Style,
    a: Asked,
) -> io::Result<()> {
    let mut ys = [0i32; WRITTEN];
    take_ordinates(input, &mut ys, a.count);
    let mut text = [b'~'; TEXT];
    let answer = write_form(style, a, &ys, &mut text);
    show_written(output, a, answer, &ys, &text)
}
