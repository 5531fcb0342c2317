// The cases of `replay` that are files to write, and to read back (second/README.md, "The stored cases").
#![tactic(auto)]

use file_write_spec::{FileLength, Scales};
use replay_back::{TEXT, WRITTEN, show_text};
use replay_file_back::file_reads_back;
use replay_input::{Asked, next_number, next_scales, take_ordinates};
use replay_show::show_touched;
use standard_input::read_full;
use std::io;
use std::io::{Print, Read};
use terms::Fault;

// Room for the title of a file that is written.
const TITLE: usize = 256;

// Writes the file, or refusal 0, which no document numbers, if this program has too little room.
fn write_file(
    title: &[u8],
    a: Asked,
    c: Scales,
    ys: &[i32],
    text: &mut [u8],
) -> Result<FileLength, Fault> {
    match (ys.get(..a.count), text.get_mut(..a.room)) {
        (Some(y), Some(t)) => file_write::write_file(title, a.points, c, y, t),
        _ => Err(Fault::new(0, 0)),
    }
}

// The answer to a file to write.
fn show_file_written(
    output: &impl Print,
    a: Asked,
    answer: Result<FileLength, Fault>,
    ys: &[i32],
    text: &[u8],
) -> io::Result<()> {
    match answer {
        Ok(f) => {
            let written = &text[..f.length.min(text.len())];
            show_text(output, written, file_reads_back(a, f.exact, ys, written))?;
            show_touched(output, text, f.length, &b'~')
        }
        Err(f) => {
            println!(output; "refused {} {}", f.number, f.place)?;
            show_touched(output, text, 0, &b'~')
        }
    }
}

// A file to write with this title: its five decimals and its ordinates follow.
fn titled_case<R: Read, P: Print>(
    input: &mut R,
    output: &P,
    title: &[u8],
    a: Asked,
) -> io::Result<()> {
    let c = next_scales(input);
    let mut ys = [0i32; WRITTEN];
    take_ordinates(input, &mut ys, a.count);
    let mut text = [b'~'; TEXT];
    let answer = write_file(title, a, c, &ys, &mut text);
    show_file_written(output, a, answer, &ys, &text)
}

// A file to write: its title follows first.
pub fn file_write_case<R: Read, P: Print>(input: &mut R, output: &P, a: Asked) -> io::Result<()> {
    let mut title = [0u8; TITLE];
    match title.get_mut(..next_number(input) as usize) {
        Some(t) => {
            read_full(input, t);
            titled_case(input, output, t, a)
        }
        None => Ok(()),
    }
}
