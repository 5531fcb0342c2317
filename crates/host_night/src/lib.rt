// The function that C calls for the night's report (include/lastarunc.h; 02, T-11): one step of the walk.
// It fills its answer, a struct of 64-bit numbers for C, and returns the first of them, `refused`.
// Every argument is answered and every number is set. `progress` is a struct too: six zeros are the start of a walk, and it has the totals so far.
#![tactic(auto)]

ghost use Rattle.host_night.specs.Told.{StepTold};

use night_numbers::{keep, progress_of, tell_end, tell_file};
use night_spec::Reported;

// What is answered for numbers that no walk can have come to, -1 for C: no refusal has this number.
const NO_WALK: u64 = 18446744073709551615;

// One step of the walk over a spool (02, T-11): the report of the next file, and `progress` is then past it; or the end, `ended` is 1 and `progress`, which has the totals, is as it was.
pub fn lastarunc_next_report(
    spool: &[u8],
    out: &mut [i32],
    progress: &mut [u64; 6],
    answer: &mut [u64; 11],
) -> u64
    ensures { StepTold spool.now out.old out.new progress.old progress.new answer.new result }
{
    let p = progress_of(progress);
    match night_step::report_next(spool, p, out) {
        Reported::Strange => tell_end(NO_WALK, 0, answer),
        Reported::Over(_) => tell_end(0, 0, answer),
        Reported::Refused { why, totals: _ } => tell_end(why.number, why.place as u64, answer),
        Reported::File { report, then } => {
            keep(then, progress);
            tell_file(report, answer)
        }
    }
}
