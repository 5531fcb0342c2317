// The functions that C calls to read a file and to find a record (include/lastarunc.h; 02, T-01). Each fills its answer, a struct of 64-bit numbers for C, and returns the first of them,
// `refused`: 0 for acceptance. Every argument is answered, every number is set, and what is not given is 0.
#![tactic(auto)]

ghost use Rattle.host_file.specs.Answers.{FileTold, RecordTold};

use host_read::{tell_file, tell_record};

// Reads a file: refused, place, line, column, points, first, last, and whether F, L and FIRSTY's quotient are exact.
pub fn lastarunc_read_file(file: &[u8], out: &mut [i32], answer: &mut [u64; 10]) -> u64
    ensures { FileTold file.now out.old out.new answer.new result }
{
    let read = file::read_file(file, out);
    tell_file(read, answer)
}

// Finds the text of a record: refused, place, line, column, from, to.
pub fn lastarunc_find_record(file: &[u8], name: &[u8], answer: &mut [u64; 6]) -> u64
    ensures { RecordTold file.now name.now answer.new result }
{
    let found = label::find(file, name);
    tell_record(found, answer)
}
