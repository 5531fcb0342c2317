// The night's report (02, T-11): a spool is walked file by file, each file is read as a simple one and reported, and the totals go over the accepted ones.
// The spool is lent and never written to; the lent ordinates are working room, and hold afterwards what the accepted files left there, one after the other.
#![tactic(auto)]

ghost use Rattle.night_report.specs.Says.{NightSays};

use file_tally::report_file;
use label_spec::Span;
use night_spec::{Night, Totals};
use night_totals::with_report;
use spool::next_record;

// Walks a spool to its end: any bytes, any slice. The totals over its accepted files, and how it ends.
pub fn whole_night(spool: &[u8], out: &mut [i32]) -> Night
    ensures { NightSays spool.now out.old out.new result }
{
    let mut at = 0;
    let mut left = 1000;
    let mut totals = Totals {
        files: 0,
        points: 0,
        missing: 0,
        sum: 0,
    };
    loop {
        match next_record(spool, at, left) {
            Ok(None) => {
                return Night {
                    totals,
                    end: Ok(()),
                };
            }
            Err(why) => {
                return Night {
                    totals,
                    end: Err(why),
                };
            }
            Ok(Some(Span { from, to })) => {
                let report = report_file(&spool[from..to], out);
                totals = with_report(totals, report);
                at = to;
                left = left - 1;
            }
        }
    }
}
