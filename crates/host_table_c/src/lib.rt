// What C calls of host_table (include/lastarunc.h): its function under the name that the library exports, with the clauses of the function that it calls.
#![tactic(auto)]

ghost use Rattle.host_table.specs.Answers.{TableTold};

// Reads a table: refused, place, line, column, points.
#[unsafe(no_mangle)]
pub extern "C" fn lastarunc_read_table(
    first: i64,
    last: i64,
    points: usize,
    body: &[u8],
    out: &mut [i32],
    answer: &mut [u64; 5],
) -> u64
    ensures { TableTold first last points body.now out.old out.new answer.new result }
{
    host_table::lastarunc_read_table(first, last, points, body, out, answer)
}
