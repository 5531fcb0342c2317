// The totals of a night's report (02, T-11): one file more, the start of a walk, and whether a walk can have come so far. No file is read here.
#![tactic(auto)]

ghost use Rattle.std.specs.Prelude.{◌≡◌, ◌≤◌, nat_abs};
ghost use Rattle.night_spec.specs.Night.{with_file, with_report};
ghost use Rattle.night_spec.specs.Steps.{no_progress, totals_legal, walk_legal};
ghost use Rattle.ordinate_account.specs.Bounds.{AccountIn, ReportIn};
ghost use Rattle.night_totals.specs.Bounds.{TotalsIn};

use night_spec::{Account, Progress, Totals};
use terms::Refusal;

// The magnitude of a number with a sign.
pub fn size_of(x: i64) -> u64
    ensures { result ≡ nat_abs x }
{
    x.unsigned_abs()
}

// One accepted file more.
fn with_file(t: Totals, a: Account) -> Totals
    requires { TotalsIn 1000 t × AccountIn a }
    ensures { result ≡ with_file a t }
{
    let files = t.files + 1;
    let points = a.points + t.points;
    let missing = a.missing + t.missing;
    let sum = a.sum + t.sum;
    Totals {
        files,
        points,
        missing,
        sum,
    }
}

// One file more; a refused one adds nothing.
pub fn with_report(t: Totals, f: Result<Account, Refusal>) -> Totals
    requires { TotalsIn 1000 t × ReportIn f }
    ensures { result ≡ with_report f t }
{
    match f {
        Err(_) => t,
        Ok(a) => with_file(t, a),
    }
}

// The start of a walk.
pub fn start() -> Progress
    ensures { result ≡ no_progress }
{
    let totals = Totals {
        files: 0,
        points: 0,
        missing: 0,
        sum: 0,
    };
    Progress {
        at: 0,
        seen: 0,
        totals,
    }
}

// Can so many files come to these totals?
#[tactic(auto, unfolding(night_spec::specs::Steps::totals_legal))]
fn totals_legal(seen: u64, t: Totals) -> bool
    requires { seen ≤ 1000 }
    ensures { result ≡ totals_legal seen t }
{
    t.files <= seen
        && t.points <= seen * 65536
        && t.missing <= t.points
        && size_of(t.sum) <= seen * 140737488355328
}

// Can a walk have come so far?
#[tactic(auto, unfolding(night_spec::specs::Steps::walk_legal))]
pub fn walk_legal(p: Progress) -> bool
    ensures { result ≡ walk_legal p }
{
    p.seen <= 1000 && totals_legal(p.seen as u64, p.totals)
}
