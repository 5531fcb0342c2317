// The numbers of a walk over a spool and of a report, as C has them (include/lastarunc.h; 02, T-11).
#![tactic(auto)]

ghost use Rattle.std.specs.Prelude.{◌≡◌};
ghost use Rattle.night_numbers.specs.Numbers.{number_of, level_bits, progress_of, numbers_of, end_answer, account_answer, file_answer};
ghost use Rattle.host_numbers.specs.Numbers.{refused_of};

use host_numbers::bits_of;
use night_spec::{Account, Progress, Totals};
use terms::Refusal;

// What stands for `none`, -2,147,483,648 for C, the mark of a missing ordinate: no ordinate and no magnitude is it.
const NONE: u64 = 18446744071562067968;

// The number with a sign that C's 64 bits are.
fn number_of(u: u64) -> i64
    ensures { result ≡ number_of u }
{
    u.cast_signed()
}

// A number of the report, or the mark for `none`.
fn level_bits(l: Option<i64>) -> u64
    ensures { result ≡ level_bits l }
{
    match l {
        None => NONE,
        Some(x) => bits_of(x),
    }
}

// How far a walk has come, by its six numbers: at, seen, files, points, missing, sum.
pub fn progress_of(progress: &[u64; 6]) -> Progress
    ensures { result ≡ progress_of progress.now }
{
    Progress {
        at: progress[0] as usize,
        seen: progress[1] as usize,
        totals: Totals {
            files: progress[2],
            points: progress[3],
            missing: progress[4],
            sum: number_of(progress[5]),
        },
    }
}

// And back again.
pub fn keep(p: Progress, progress: &mut [u64; 6])
    ensures { progress.new ≡ numbers_of p }
{
    let t = p.totals;
    *progress = [
        p.at as u64,
        p.seen as u64,
        t.files,
        t.points,
        t.missing,
        bits_of(t.sum),
    ];
}

// The end of a walk: the number and the place of the spool's refusal.
pub fn tell_end(number: u64, place: u64, answer: &mut [u64; 11]) -> u64
    ensures { (answer.new ≡ end_answer number place) × (result ≡ number) }
{
    *answer = [number, place, 0, 0, 1, 0, 0, NONE, NONE, 0, NONE];
    number
}

// A file that was read.
fn tell_account(a: Account, answer: &mut [u64; 11]) -> u64
    ensures { (answer.new ≡ account_answer a) × (result ≡ 0) }
{
    let lowest = level_bits(a.lowest);
    let highest = level_bits(a.highest);
    let sum = bits_of(a.sum);
    let faintest = level_bits(a.faintest);
    *answer = [
        0, 0, 0, 0, 0, a.points, a.missing, lowest, highest, sum, faintest,
    ];
    0
}

// A file: refused, place, line, column, and 0 since the walk goes on; points, missing, lowest, highest, sum, faintest.
pub fn tell_file(f: Result<Account, Refusal>, answer: &mut [u64; 11]) -> u64
    ensures { (answer.new ≡ file_answer f) × (result ≡ refused_of (file_answer f)) }
{
    match f {
        Ok(a) => tell_account(a, answer),
        Err(r) => {
            *answer = [
                r.number,
                r.place as u64,
                r.line as u64,
                r.column as u64,
                0,
                0,
                0,
                NONE,
                NONE,
                0,
                NONE,
            ];
            r.number
        }
    }
}
