// The night's report step by step (02, T-11), with the totals so far: each step reads one file of the spool, which is lent and never written to; the lent ordinates are working room.
#![tactic(auto)]

ghost use Rattle.night_spec.specs.Night.{with_report};
ghost use Rattle.night_step.specs.Says.{NextSays};

use file_tally::report_file;
use label_spec::Span;
use night_spec::{Progress, Reported};
use night_totals::{walk_legal, with_report};
use spool::next_record;

// One step of the walk: any bytes, any slice, any progress. From `start` on, each step is handed what the one before it answered, and each file is read once.
pub fn report_next(spool: &[u8], p: Progress, out: &mut [i32]) -> Reported
    ensures { NextSays spool.now p out.old out.new result }
{
    let at = p.at;
    let seen = p.seen;
    let totals = p.totals;
    if !walk_legal(p) {
        return Reported::Strange;
    }
    let left = 1000 - seen;
    match next_record(spool, at, left) {
        Ok(None) => Reported::Over(totals),
        Err(why) => Reported::Refused { why, totals },
        Ok(Some(Span { from, to })) => {
            let report = report_file(&spool[from..to], out);
            let then = Progress {
                at: to,
                seen: seen + 1,
                totals: with_report(totals, report),
            };
            Reported::File { report, then }
        }
    }
}
