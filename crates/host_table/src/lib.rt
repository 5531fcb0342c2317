// The function that C calls to read a table (include/lastarunc.h; 02, T-01). It stands alone, so that the compiler makes one function of the whole reader.
// It fills its answer, a struct of 64-bit numbers for C, and returns the first of them, `refused`: 0 for acceptance. Every number is set, and what is not given is 0.
#![tactic(auto)]

ghost use Rattle.host_numbers.specs.Numbers.{Told};
ghost use Rattle.host_table.specs.Answers.{table_numbers, TableTold};

use terms::Refusal;

// A table read: refused, place, line, column, points.
pub fn tell_table(read: Result<usize, Refusal>, answer: &mut [u64; 5]) -> u64
    ensures { Told (table_numbers read) answer.new result }
{
    match read {
        Ok(n) => {
            *answer = [0, 0, 0, 0, n as u64];
            0
        }
        Err(r) => {
            *answer = [r.number, r.place as u64, r.line as u64, r.column as u64, 0];
            r.number
        }
    }
}

// Reads a table: refused, place, line, column, points.
pub fn lastarunc_read_table(
    first: i64,
    last: i64,
    points: usize,
    body: &[u8],
    out: &mut [i32],
    answer: &mut [u64; 5],
) -> u64
    ensures { TableTold first last points body.now out.old out.new answer.new result }
{
    let read = table_read::read_table(first, last, points, body, out);
    tell_table(read, answer)
}
