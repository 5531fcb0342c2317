// The program (01, "Bench samples"): reads a file from standard input and prints its table, or why it is refused. A read that fails or ends early ends the input: what came before it is the file.
#![tactic(auto)]

use file_spec::FileTable;
use report::Ordinate;
use standard_input::read_full;
use std::io;
use std::io::Print;
use terms::{Reason, Refusal};

// The most bytes that are read (01, "Bench samples").
const LONGEST_INPUT: usize = 49152;

// The most points that there is room for.
const MOST_POINTS: usize = 4096;

// `ok`, the points, F and L, and then each ordinate on a line.
fn show(
    output: &impl Print,
    errors: &impl Print,
    table: FileTable,
    out: &[i32; MOST_POINTS],
) -> io::Result<()> {
    println!(output; "ok {} {} {}", table.points, table.first, table.last)?;
    for y in out.iter().take(table.points) {
        output.println(Ordinate(*y))?;
    }
    explain_rounded(errors, table)
}

// On standard error, which of F and L was rounded (02, T-08); nothing where both are exact.
fn explain_rounded(errors: &impl Print, table: FileTable) -> io::Result<()> {
    if !table.exact.first {
        report::explain_rounded(errors, b"FIRSTX", table.first)?;
    }
    if !table.exact.last {
        report::explain_rounded(errors, b"LASTX", table.last)?;
    }
    Ok(())
}

// A refusal on standard output; on standard error where it stands in the file, and what it means.
fn refuse(output: &impl Print, errors: &impl Print, file: &[u8], r: Refusal) -> io::Result<()> {
    println!(output; "refused {} {}", r.number, r.place)?;
    report::explain(errors, file, r)
}

// The answer to a file.
fn answer(output: &impl Print, errors: &impl Print, file: &[u8]) -> io::Result<()> {
    let mut out = [0i32; MOST_POINTS];
    match file::read_file(file, &mut out) {
        Ok(table) => show(output, errors, table, &out),
        Err(r) => refuse(output, errors, file, r),
    }
}

fn main(rt: HostRuntime) -> io::Result<()> {
    let output = rt.stdout();
    let errors = rt.stderr();
    let mut file = [0u8; LONGEST_INPUT + 1];
    let n = read_full(&mut rt.stdin(), &mut file);
    if n > LONGEST_INPUT {
        refuse(
            &output,
            &errors,
            &file,
            text::refusal_in(&file, Reason::LongFile.number(), 0),
        )
    } else {
        answer(&output, &errors, &file[..n])
    }
}
