// What C calls of host_file (include/lastarunc.h): its functions under the names that the library exports, each with the clauses of the function that it calls.
#![tactic(auto)]

ghost use Rattle.host_file.specs.Answers.{FileTold, RecordTold};

// Reads a file: refused, place, line, column, points, first, last, and whether F, L and FIRSTY's quotient are exact.
#[unsafe(no_mangle)]
pub extern "C" fn lastarunc_read_file(file: &[u8], out: &mut [i32], answer: &mut [u64; 10]) -> u64
    ensures { FileTold file.now out.old out.new answer.new result }
{
    host_file::lastarunc_read_file(file, out, answer)
}

// Finds the text of a record: refused, place, line, column, from, to.
#[unsafe(no_mangle)]
pub extern "C" fn lastarunc_find_record(file: &[u8], name: &[u8], answer: &mut [u64; 6]) -> u64
    ensures { RecordTold file.now name.now answer.new result }
{
    host_file::lastarunc_find_record(file, name, answer)
}
