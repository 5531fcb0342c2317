// The program of the night's report (02, T-11): a spool on standard input; on standard output a line for each file, then the totals, then how the spool ended.
// What the fault of a refused file means goes to standard error.
// A read that fails or ends early ends the input: what came before it is the spool.
#![tactic(auto)]

ghost use Rattle.std.specs.Prelude.{◌<◌};

use night_print::{print_file, print_stopped, print_whole};
use night_spec::Reported;
use standard_input::read_full;
use std::io;
use std::io::{Print, Read};

// The most bytes of a spool that there is room for.
const LONGEST_SPOOL: usize = 4194304;

// Room for a spool, and for a byte more, by which a longer one is known.
const ROOM: usize = LONGEST_SPOOL + 1;

// Room for the ordinates of every file that is accepted (01, "The frame of a table").
const MOST_POINTS: usize = 65536;

// The steps of the longest walk: 1,000 files, and the end.
const MOST_STEPS: u64 = 1001;

// The report on a spool.
fn walk(output: &impl Print, errors: &impl Print, spool: &[u8], out: &mut [i32]) -> io::Result<()> {
    let mut p = night_totals::start();
    for _ in 0..MOST_STEPS {
        let at = p.at;
        match night_step::report_next(spool, p, out) {
            Reported::Strange => {
                return Ok(());
            }
            Reported::Over(t) => {
                return print_whole(output, t);
            }
            Reported::Refused { why, totals } => {
                return print_stopped(output, errors, totals, why);
            }
            Reported::File { report: f, then } => {
                print_file(output, errors, spool, at, then, f)?;
                p = then;
            }
        }
    }
    Ok(())
}

// Reads a spool and reports on it, in the room that is lent.
fn answer(
    input: &mut impl Read,
    output: &impl Print,
    errors: &impl Print,
    spool: &mut [u8],
    out: &mut [i32],
) -> io::Result<()> {
    let n = read_full(input, spool);
    if n > LONGEST_SPOOL {
        println!(errors;
            "spool: it has more than {LONGEST_SPOOL} bytes, and there is no room for it; nothing is reported"
        )
    } else {
        walk(output, errors, &spool[..n], out)
    }
}

// The same with the room itself. The sizes are parameters, so that no proof counts so many zeros.
fn answer_in<const BYTES: usize, const POINTS: usize>(
    input: &mut impl Read,
    output: &impl Print,
    errors: &impl Print,
) -> io::Result<()>
    requires bytes { BYTES < 4294967296 }
    requires points { POINTS < 4294967296 }
{
    let mut spool = [0u8; BYTES];
    let mut out = [0i32; POINTS];
    answer(input, output, errors, &mut spool, &mut out)
}

fn main(rt: HostRuntime) -> io::Result<()> {
    let mut input = rt.stdin();
    let output = rt.stdout();
    let errors = rt.stderr();
    answer_in::<ROOM, MOST_POINTS>(&mut input, &output, &errors)
}
