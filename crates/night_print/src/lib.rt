// What the program of the night's report prints (02, T-11): a line for each file, the totals, and how the spool ended. What is printed is tested against stored output; nothing is claimed of it.
#![tactic(auto)]

use night_spec::{Account, Progress, Totals};
use std::io::Print;
use std::{fmt, io};
use terms::{Fault, Refusal};

// What stands before a file: two mark bytes and three of its length.
const MARK_LENGTH: usize = 5;

// A number of the report, or `none`.
#[derive(Drop)]
struct OrNone(Option<i64>);

impl fmt::Display for OrNone {
    fn fmt<W: fmt::Write>(&self, f: &mut fmt::Formatter<W>) -> fmt::Result {
        match self.0 {
            None => write!(f, "none"),
            Some(x) => write!(f, "{x}"),
        }
    }
}

// What is said of a file that was read, in the order of document 02.
fn print_account(output: &impl Print, a: Account) -> io::Result<()> {
    println!(output;
        "points {}, missing {}, lowest {}, highest {}, sum {}, faintest {}",
        a.points,
        a.missing,
        OrNone(a.lowest),
        OrNone(a.highest),
        a.sum,
        OrNone(a.faintest)
    )
}

// The file whose record stands at `at` and ends at `to`; nothing where no record does.
fn file_in<'a>(spool: &'a [u8], at: usize, to: usize) -> &'a [u8] {
    spool
        .get(at..to)
        .and_then(|record| record.get(MARK_LENGTH..))
        .unwrap_or(&[])
}

// A refusal on standard output, as document 01 has it; on standard error the number of the file, where the fault stands in it, and what it means.
fn print_refusal(
    output: &impl Print,
    errors: &impl Print,
    file: &[u8],
    number: usize,
    r: Refusal,
) -> io::Result<()> {
    println!(output; "refused {} {}", r.number, r.place)?;
    print!(errors; "file {number}, ")?;
    report::explain(errors, file, r)
}

// The line of a file: its number in the spool, the place of its record, and its report.
pub fn print_file(
    output: &impl Print,
    errors: &impl Print,
    spool: &[u8],
    at: usize,
    then: Progress,
    f: Result<Account, Refusal>,
) -> io::Result<()> {
    let number = then.seen;
    let to = then.at;
    print!(output; "file {number} at {at}: ")?;
    match f {
        Ok(a) => print_account(output, a),
        Err(r) => print_refusal(output, errors, file_in(spool, at, to), number, r),
    }
}

// The totals over the accepted files.
fn print_totals(output: &impl Print, t: Totals) -> io::Result<()> {
    println!(output;
        "total: files {}, points {}, missing {}, sum {}",
        t.files, t.points, t.missing, t.sum
    )
}

// What a refusal of the spool means.
fn meaning(number: u64) -> &'static str {
    match number {
        34 => "no mark stands where a file should begin",
        35 => "it ends within a file or what stands before one",
        _ => "there are more than 1,000 files",
    }
}

// The last lines, where the spool is refused.
pub fn print_stopped(
    output: &impl Print,
    errors: &impl Print,
    t: Totals,
    why: Fault,
) -> io::Result<()> {
    print_totals(output, t)?;
    println!(output; "spool: refused {} {}", why.number, why.place)?;
    println!(errors; "spool: {}", meaning(why.number))
}

// The last lines, where it is whole.
pub fn print_whole(output: &impl Print, t: Totals) -> io::Result<()> {
    print_totals(output, t)?;
    println!(output; "spool: whole")
}
