// What `replay` prints of the answers of readers, and whether lent memory was touched: it is filled first, and a line `touched` tells that an entry past the answer was altered.
#![tactic(auto)]

use file_spec::FileTable;
use report::Ordinate;
use std::io;
use std::io::Print;
use terms::Refusal;

// Room for the ordinates of a table or a file that is read.
pub const READ: usize = 4096;

// What ordinates are filled with first; no case has it.
pub const FILL: i32 = -1234567891;

// The first n ordinates, and the line's end.
fn show_points(output: &impl Print, out: &[i32; READ], n: usize) -> io::Result<()> {
    for y in out.iter().take(n) {
        print!(output; " {}", Ordinate(*y))?;
    }
    println!(output; "")
}

// A line if an entry from index n on is not what the slice was filled with.
pub fn show_touched<T: PartialEq>(
    output: &impl Print,
    lent: &[T],
    n: usize,
    fill: &T,
) -> io::Result<()> {
    if lent.iter().skip(n).any(|x| x != fill) {
        println!(output; "touched")?;
    }
    Ok(())
}

// A refusal of a reader: number, place, line and column.
fn show_refusal(output: &impl Print, r: Refusal) -> io::Result<()> {
    println!(output; "refused {} {} {} {}", r.number, r.place, r.line, r.column)
}

// The answer to a body: `ok`, the points and the ordinates, or the refusal.
pub fn show_read(
    output: &impl Print,
    answer: Result<usize, Refusal>,
    out: &[i32; READ],
) -> io::Result<()> {
    match answer {
        Ok(n) => {
            print!(output; "ok {n}")?;
            show_points(output, out, n)?;
            show_touched(output, out, n, &FILL)
        }
        Err(r) => {
            show_refusal(output, r)?;
            show_touched(output, out, 0, &FILL)
        }
    }
}

// An accepted file: `ok`, the points, F and L, and the ordinates.
fn show_table(output: &impl Print, table: FileTable, out: &[i32; READ]) -> io::Result<()> {
    print!(output; "ok {} {} {}", table.points, table.first, table.last)?;
    show_points(output, out, table.points)?;
    show_touched(output, out, table.points, &FILL)
}

// The answer to a file: its table, or the refusal.
pub fn show_file(
    output: &impl Print,
    answer: Result<FileTable, Refusal>,
    out: &[i32; READ],
) -> io::Result<()> {
    match answer {
        Ok(table) => show_table(output, table, out),
        Err(r) => {
            show_refusal(output, r)?;
            show_touched(output, out, 0, &FILL)
        }
    }
}
