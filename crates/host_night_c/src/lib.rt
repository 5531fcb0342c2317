// What C calls of host_night (include/lastarunc.h): its function under the name that the library exports, with the clauses of the function that it calls.
#![tactic(auto)]

ghost use Rattle.host_night.specs.Told.{StepTold};

// One step of the walk over a spool (02, T-11): the report of the next file, and `progress` is then past it; or the end, `ended` is 1 and `progress`, which has the totals, is as it was.
#[unsafe(no_mangle)]
pub extern "C" fn lastarunc_next_report(
    spool: &[u8],
    out: &mut [i32],
    progress: &mut [u64; 6],
    answer: &mut [u64; 11],
) -> u64
    ensures { StepTold spool.now out.old out.new progress.old progress.new answer.new result }
{
    host_night::lastarunc_next_report(spool, out, progress, answer)
}
