// Whether a file that `replay` wrote reads back (second/README.md, "The stored cases").
#![tactic(auto)]

use file_spec::{Exactness, FileTable};
use replay_back::{WRITTEN, same};
use replay_input::Asked;
use replay_show::FILL;

// Has a file that was read back N and the ordinates, and what the writer said is exact?
fn same_table(a: Asked, exact: Exactness, t: FileTable, ys: &[i32], back: &[i32]) -> bool {
    t.points == a.points && t.exact == exact && same(ys, back, t.points)
}

// Does reading the written file give it back?
pub fn file_reads_back(a: Asked, exact: Exactness, ys: &[i32], text: &[u8]) -> bool {
    let mut back = [FILL; WRITTEN];
    match file::read_file(text, &mut back) {
        Ok(t) => same_table(a, exact, t, ys, &back),
        Err(_) => false,
    }
}
