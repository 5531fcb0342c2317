// Runs the samples of samples/ and the stored cases of the second reader (second/README.md, "The stored cases"): tables
// to read, tables to write and read back, and files to read. Standard input has the cases, the file stdout their
// answers.
#![tactic(auto)]

use replay_file_writes::file_write_case;
use replay_input::{next_asked, next_number};
use replay_reads::{body_case, file_case};
use replay_writes::write_case;
use std::io;
use std::io::{Print, Read};
use table_spec::Style;

// The next case, and that there was one: 1 is a body, 3 a file; 2 is a table to write as DIFDUP, 4 as AFFN, 5 as PAC, 6 as SQZ; 7 is a file to write; 8 is an old body, 9 an old file.
fn next_case<R: Read, P: Print>(input: &mut R, output: &P) -> io::Result<bool> {
    let kind = next_number(input);
    if kind == 0 {
        return Ok(false);
    }
    let a = next_asked(input);
    match kind {
        1 => body_case(input, output, a, false)?,
        2 => write_case(input, output, Style::Difdup, a)?,
        4 => write_case(input, output, Style::Affn, a)?,
        5 => write_case(input, output, Style::Pac, a)?,
        6 => write_case(input, output, Style::Sqz, a)?,
        7 => file_write_case(input, output, a)?,
        8 => body_case(input, output, a, true)?,
        9 => file_case(input, output, a, true)?,
        _ => file_case(input, output, a, false)?,
    }
    Ok(true)
}

fn main(rt: HostRuntime) -> io::Result<()> {
    let mut input = rt.stdin();
    let output = rt.stdout();
    for _ in 0..100000 {
        if !next_case(&mut input, &output)? {
            break;
        }
    }
    Ok(())
}
