// A data block of a file, read where it stands (02, T-07), and a record of it, passed on from `compound_record`. `compound_find::find_blocks` tells its places.
#![tactic(auto)]

ghost use Rattle.compound_read.specs.Answers.{ReadsBlock};

pub use compound_record::find_in_block;
use file::read_part;
use file_spec::FileTable;
use terms::{Reason, Refusal};
use text::refusal_in;

// The most bytes of a file.
const LONGEST_FILE: usize = 1048576;

// Reads a data block where it stands in a file: its records are those from the place `start`, after its TITLE's `=`, up to `end`, its END's `##`. Any bytes, any places, any slice. Accepted and
// refused as a file is, with place, line and column in the whole file; or these are no places of a block. Unless it is accepted, every entry is what it was.
pub fn read_block(
    file: &[u8],
    start: usize,
    end: usize,
    out: &mut [i32],
) -> Option<Result<FileTable, Refusal>>
    ensures { ReadsBlock file.now start end out.old out.new result }
{
    if file.len() > LONGEST_FILE {
        return Some(Err(refusal_in(file, Reason::LongFile.number(), 0)));
    }
    if start > end {
        return None;
    }
    if end > file.len() {
        return None;
    }
    match read_part(file, out, start, end) {
        Ok(t) => Some(Ok(t)),
        Err(f) => Some(Err(refusal_in(file, f.number, f.place))),
    }
}
