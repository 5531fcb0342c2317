// Whether what `replay` wrote reads back (second/README.md, "The stored cases").
#![tactic(auto)]

use replay_input::Asked;
use replay_show::FILL;
use std::io;
use std::io::Print;

// Room for the ordinates of a table that is written.
pub const WRITTEN: usize = 20000;

// Room for the bytes of a text.
pub const TEXT: usize = 65536;

// Are the first n ordinates those read back?
pub fn same(ys: &[i32], back: &[i32], n: usize) -> bool {
    match (ys.get(..n), back.get(..n)) {
        (Some(written), Some(read)) => written == read,
        _ => false,
    }
}

// Does reading the text in the frame it was written in give back the ordinates?
pub fn reads_back(a: Asked, ys: &[i32], text: &[u8]) -> bool {
    let mut back = [FILL; WRITTEN];
    match table_read::read_table(a.first, a.last, a.points, text, &mut back) {
        Ok(n) => n == a.points && same(ys, &back, n),
        Err(_) => false,
    }
}

// What was written: `ok` and its length, whether it reads back, and from the next line on itself.
pub fn show_text(output: &impl Print, written: &[u8], same: bool) -> io::Result<()> {
    let word = if same { "same" } else { "differs" };
    println!(output; "ok {} {word}", written.len())?;
    output.write_all(written)?;
    println!(output; "")
}
