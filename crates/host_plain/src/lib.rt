// The plain engine for C (02, T-14), in an archive of its own: compiled with the first engine, the functions that both call are no longer inlined there, which costs it 7 to 19 in a hundred.
#![tactic(auto)]

ghost use Rattle.host_table.specs.Answers.{TableTold};

// Reads a table by the plain engine (02, T-14): as `lastarunc_read_table` does, word for word.
pub fn lastarunc_read_plain(
    first: i64,
    last: i64,
    points: usize,
    body: &[u8],
    out: &mut [i32],
    answer: &mut [u64; 5],
) -> u64
    ensures { TableTold first last points body.now out.old out.new answer.new result }
{
    let read = plain_read::read_plain(first, last, points, body, out);
    host_table::tell_table(read, answer)
}
