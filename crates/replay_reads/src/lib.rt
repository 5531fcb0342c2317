// The cases of `replay` that are read: tables and files, and old ones, which are converted first (second/README.md, "The stored cases").
#![tactic(auto)]

use file_spec::FileTable;
use replay_input::{Asked, take_bytes};
use replay_show::{FILL, READ, show_file, show_read};
use std::io;
use std::io::{Print, Read};
use terms::Refusal;
use text::refusal_in;

// Room for the bytes of a body or a file.
const BYTES: usize = 4096;

// Reads the table, or refusal 0, which no document numbers, if this program has too little room.
fn read_table(a: Asked, body: &[u8], out: &mut [i32]) -> Result<usize, Refusal> {
    match (body.get(..a.count), out.get_mut(..a.room)) {
        (Some(b), Some(o)) => table_read::read_table(a.first, a.last, a.points, b, o),
        _ => Err(refusal_in(body, 0, 0)),
    }
}

// Reads the file, or refusal 0, which no document numbers, if this program has too little room.
fn read_file(a: Asked, file: &[u8], out: &mut [i32]) -> Result<FileTable, Refusal> {
    match (file.get(..a.count), out.get_mut(..a.room)) {
        (Some(f), Some(o)) => file::read_file(f, o),
        _ => Err(refusal_in(file, 0, 0)),
    }
}

// A body to read: its bytes follow. One from before tabs were refused (02, T-13) is converted before it is read.
pub fn body_case<R: Read, P: Print>(
    input: &mut R,
    output: &P,
    a: Asked,
    old: bool,
) -> io::Result<()> {
    let mut body = [0u8; BYTES];
    take_bytes(input, &mut body, a.count);
    if old {
        detab::detab(&mut body);
    }
    let mut out = [FILL; READ];
    let answer = read_table(a, &body, &mut out);
    show_read(output, answer, &out)
}

// Converts the file in the first n bytes.
fn convert_file(file: &mut [u8], n: usize) {
    if let Some(f) = file.get_mut(..n) {
        file_detab::detab_file(f);
    }
}

// A file to read: its bytes follow. One from before tabs were refused is converted likewise.
pub fn file_case<R: Read, P: Print>(
    input: &mut R,
    output: &P,
    a: Asked,
    old: bool,
) -> io::Result<()> {
    let mut file = [0u8; BYTES];
    take_bytes(input, &mut file, a.count);
    if old {
        convert_file(&mut file, a.count);
    }
    let mut out = [FILL; READ];
    let answer = read_file(a, &file, &mut out);
    show_file(output, answer, &out)
}
